// A pad to record on: bars saved, erased, read back and written out, and the number of hits on the display, which is answered as stored.
// Each call but that one answers 20 for words that are no pad, before all else.
ghost use Rattle.std.specs.Prelude.{◌≡◌};
ghost use Rattle.pad_read.specs.Counter.{pad_hits};
ghost use Rattle.pad_read.specs.Promise.{BarReadBack};
ghost use Rattle.pad_record.specs.Promise.{BarSaved, BarErased};
ghost use Rattle.pad_write.specs.Promise.{PadWritten};
ghost use Rattle.c_reply.specs.Replies.{Replied, counted_reply, written_reply, bar_read_reply, hits_reply};

use c_reply::reply::{Reply, of_bar_read, of_counted, of_hits};
use pad_read::hits::pad_hits;
use pad_read::read::pad_read;
use pad_record::erase::pad_erase;
use pad_record::save::pad_save;
use pad_write::write::pad_write;

// first: how many hits the bar has; it is held under its id.
pub fn pstp_pad_save(
    pad: &mut [u32],
    id: u32,
    length: u32,
    sounds: &[u8],
    steps: &[u32],
    velocities: &[u8],
) -> Reply
    ensures { Replied counted_reply
        (λ a. BarSaved pad.old id length sounds.now steps.now velocities.now a pad.new) result }
{
    of_counted(pad_save(pad, id, length, sounds, steps, velocities))
}

// first: how many hits the bar had; it is no longer held.
pub fn pstp_pad_erase(pad: &mut [u32], id: u32) -> Reply
    ensures { Replied counted_reply (λ a. BarErased pad.old id a pad.new) result }
{
    of_counted(pad_erase(pad, id))
}

// first: how many hits the bar has; second: its length; sounds, steps and velocities in three buffers, in the order saved.
pub fn pstp_pad_read(
    pad: &[u32],
    id: u32,
    sounds: &mut [u8],
    steps: &mut [u32],
    velocities: &mut [u8],
) -> Reply
    ensures { Replied bar_read_reply
        (λ a. BarReadBack pad.now id sounds.old steps.old velocities.old a sounds.new steps.new velocities.new) result }
{
    of_bar_read(pad_read(pad, id, sounds, steps, velocities))
}

// first: how many hits the bars have together, as stored; never refused.
pub fn pstp_pad_hits(pad: &[u32]) -> Reply
    ensures { result ≡ hits_reply (pad_hits pad.now) }
{
    of_hits(pad_hits(pad))
}

// first: how many bytes were written: the bars as a segment, at the slice's front.
pub fn pstp_pad_write(pad: &[u32], text: &[u8], ends: &[u32], out: &mut [u8]) -> Reply
    ensures { Replied written_reply (λ a. PadWritten pad.now text.now ends.now out.old a out.new) result }
{
    of_counted(pad_write(pad, text, ends, out))
}
