// The ranked search of a segment that is opened for it.
ghost use Rattle.std.specs.Prelude.{◌≡◌, true, false, ◌≤◌, length};
ghost use Rattle.segment.specs.Texts.{ends_fit, names};
ghost use Rattle.rules.specs.Kinds.{idle};
ghost use Rattle.read_open.specs.Opened.{Fits};
ghost use Rattle.ask_ranked.specs.Promise.{RankedAnswered};
ghost use Rattle.ask_ranked.specs.Steps.{LayoutRanked};

use crate::names::rank_names;
use ask_answer::layout::is_idle;
use ask_names::lists::resolve;
use ask_names::question::check_question;
use ask_names::slots::Names;
use read_open::header::Layout;
use read_open::open_segment::open_layout;
use rules::rule::Rule;
use segment::refusal::Refusal;

// The ranked answer to a phrase whose names stand in one text, by a layout that fits the bytes.
fn rank_text(
    bytes: &[u8],
    at: Layout,
    text: &[u8],
    ends: &[u32],
    ids: &mut [u32],
    counts: &mut [u32],
) -> Result<usize, Refusal>
    requires { Fits bytes.now at × (ends_fit 0 ends.now (length text.now) ≡ true) × (length ends.now ≤ 128)
        × (idle Rule.Phrase (length ends.now) ≡ false) }
    ensures { LayoutRanked bytes.now at (names 0 ends.now text.now) ids.old counts.old result ids.new counts.new }
{
    let mut found = Names::new();
    resolve(bytes, at, text, ends, &mut found);
    rank_names(bytes, at, &mut found, ids, counts)
}

// The documents that have the names at consecutive positions, the best first: how many, their ids, and beside each at how many starts the
// phrase fits; a higher count stands first, of equal counts the lower id. Or the first refusal: those of phrase_match_strs, then 13 for
// ids, then for counts. No names: none.
pub fn phrase_match_ranked(
    bytes: &[u8],
    text: &[u8],
    ends: &[u32],
    ids: &mut [u32],
    counts: &mut [u32],
) -> Result<usize, Refusal>
    ensures { RankedAnswered bytes.now text.now ends.now ids.old counts.old result ids.new counts.new }
{
    check_question(text, ends)?;
    let at = open_layout(bytes)?;
    if is_idle(Rule::Phrase, ends.len()) {
        return Ok(0);
    }
    rank_text(bytes, at, text, ends, ids, counts)
}
