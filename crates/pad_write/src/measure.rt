// The sounds taken one by one, checked and measured: the writer's refusal of the first sound with hits that breaks a rule, or how many
// terms there are and how many bytes their names and posting lists take. Only one sound's lists are held at a time.
ghost use Rattle.std.specs.Prelude.{◌≡◌};
ghost use Rattle.common.specs.Lists.{paired};
ghost use Rattle.segment.specs.Metadata.{document};
ghost use Rattle.segment.specs.Texts.{names};
ghost use Rattle.pad_map.specs.Acts.{terms_of};
ghost use Rattle.pad_words.specs.Words.{held};
ghost use Rattle.pad_write.specs.Steps.{gathered, tallied, SoundMeasurable, PadAndNames, DocumentsGiven, SoundsMeasured};

use common::widths::long;
use pad_lists::sound::{Gathered, gather_sound};
use segment::refusal::Refusal;
use write_check_all::lists::measure_postings;
use write_checks::check::check_name;

// Where a name lies in the text.
#[derive(Clone, Copy)]
pub struct Span {
    pub from: usize,
    pub to: usize,
}

// The sounds with hits so far: how many, the bytes of their names and posting lists, and where the last one's name lies in the text. The
// next sound's name starts at `from`, whether or not it has hits.
#[derive(Clone, Copy)]
pub struct Tally {
    pub terms: usize,
    pub names: usize,
    pub lists: usize,
    pub last: Option<Span>,
    pub from: usize,
}

// One sound, whose name ends at `end`: without hits it is passed over, its name too.
fn measure_sound(
    ids: &[u32],
    lengths: &[u32],
    text: &[u8],
    posting_ids: &[u32],
    counts: &[u32],
    positions: &[u32],
    got: Gathered,
    end: usize,
    tally: Tally,
) -> Result<Tally, Refusal>
    requires { SoundMeasurable ids.now lengths.now text.now posting_ids.now counts.now positions.now got end tally }
    ensures { result ≡ tallied (paired document ids.now lengths.now) text.now got.postings
        (gathered posting_ids.now counts.now positions.now got) end tally }
{
    let n = got.postings;
    if n == 0 {
        return Ok(Tally { from: end, ..tally });
    }
    let from = tally.from;
    let last = tally.last.map(|last| &text[last.from..last.to]);
    check_name(last, &text[from..end])?;
    let size = measure_postings(
        ids,
        lengths,
        &posting_ids[..n],
        &counts[..n],
        &positions[..got.positions],
    )?;
    Ok(Tally {
        terms: tally.terms + 1,
        names: tally.names + (end - from),
        lists: tally.lists + size,
        last: Some(Span { from, to: end }),
        from: end,
    })
}

// All sounds. The three lists are lent to hold one sound after the other.
pub fn measure_sounds(
    pad: &[u32],
    ids: &[u32],
    lengths: &[u32],
    text: &[u8],
    ends: &[u32],
    posting_ids: &mut [u32; 256],
    counts: &mut [u32; 256],
    positions: &mut [u32; 8192],
) -> Result<Tally, Refusal>
    requires { PadAndNames pad.now text.now ends.now posting_ids.old counts.old positions.old
        × DocumentsGiven pad.now ids.now lengths.now }
    ensures { SoundsMeasured (paired document ids.now lengths.now)
        (terms_of 0 (names 0 ends.now text.now) (held pad.now)) result posting_ids.new counts.new positions.new }
{
    let mut cursors = [0; 256];
    let mut tally = Tally {
        terms: 0,
        names: 0,
        lists: 0,
        last: None,
        from: 0,
    };
    for sound in 0..ends.len() {
        let end = long(ends[sound]);
        let got = gather_sound(
            pad,
            sound as u32,
            &mut cursors,
            posting_ids,
            counts,
            positions,
        );
        tally = measure_sound(
            ids,
            lengths,
            text,
            posting_ids,
            counts,
            positions,
            got,
            end,
            tally,
        )?;
    }
    Ok(tally)
}
