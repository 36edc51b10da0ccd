// The sounds taken one by one and stored: the posting list, behind it the directory entry, which has the list's length and checksum, and
// the name from where it stands in the text.
ghost use Rattle.segment.specs.Records.{between};
ghost use Rattle.segment.specs.Texts.{names};
ghost use Rattle.pad_map.specs.Acts.{terms_of};
ghost use Rattle.pad_words.specs.Words.{held};
ghost use Rattle.pad_write.specs.Steps.{gathered, SoundRoom, SoundStored, PadAndNames, TermsRoom, TermsStored};

use common::widths::long;
use crc32::checksum::{START, finish};
use pad_lists::sound::{Gathered, gather_sound};
use segment::fixed::HEADER_SIZE;
use write_frame::frame::put_entry;
use write_frame::numbers::put_bytes;
use write_lists::put::put_postings;

// Where the next list and its directory entry are stored, how many bytes of names are stored, the remainder of the lists' checksum, and
// where the next sound's name starts in the text.
#[derive(Clone, Copy)]
pub struct Progress {
    pub list: usize,
    pub entry: usize,
    pub name: usize,
    pub run: u32,
    pub from: usize,
}

// One sound, whose name ends at `end`: without hits nothing is stored.
fn put_sound(
    text: &[u8],
    posting_ids: &[u32],
    counts: &[u32],
    positions: &[u32],
    got: Gathered,
    end: usize,
    out: &mut [u8],
    names_at: usize,
    lists_at: usize,
    at: Progress,
) -> Progress
    requires { SoundRoom text.now posting_ids.now counts.now positions.now got end out.old names_at lists_at at }
    ensures { SoundStored names_at lists_at (between at.from end text.now)
        (gathered posting_ids.now counts.now positions.now got) got.postings end out.old at result out.new }
{
    let n = got.postings;
    if n == 0 {
        return Progress { from: end, ..at };
    }
    let past_list = put_postings(
        &posting_ids[..n],
        &counts[..n],
        &positions[..got.positions],
        out,
        at.list,
    );
    let past = put_entry(
        out,
        at.entry,
        at.name,
        end - at.from,
        lists_at,
        at.list,
        past_list,
        n as u32,
        at.run,
    );
    put_bytes(out, names_at + at.name, &text[at.from..end]);
    Progress {
        list: past_list,
        entry: past.entry,
        name: at.name + (end - at.from),
        run: past.run,
        from: end,
    }
}

// All sounds. The three lists are lent to hold one sound after the other. Answers the checksum of all posting lists.
pub fn put_sounds(
    pad: &[u32],
    text: &[u8],
    ends: &[u32],
    posting_ids: &mut [u32; 256],
    counts: &mut [u32; 256],
    positions: &mut [u32; 8192],
    out: &mut [u8],
    names_at: usize,
    lists_at: usize,
) -> u32
    requires { PadAndNames pad.now text.now ends.now posting_ids.old counts.old positions.old
        × TermsRoom names_at lists_at (terms_of 0 (names 0 ends.now text.now) (held pad.now)) out.old }
    ensures { TermsStored names_at lists_at (terms_of 0 (names 0 ends.now text.now) (held pad.now)) out.old result
        out.new }
{
    let mut cursors = [0; 256];
    let mut at = Progress {
        list: lists_at,
        entry: HEADER_SIZE,
        name: 0,
        run: START,
        from: 0,
    };
    for sound in 0..ends.len() {
        let end = long(ends[sound]);
        let got = gather_sound(
            pad,
            sound as u32,
            &mut cursors,
            posting_ids,
            counts,
            positions,
        );
        at = put_sound(
            text,
            posting_ids,
            counts,
            positions,
            got,
            end,
            out,
            names_at,
            lists_at,
            at,
        );
    }
    finish(at.run)
}
