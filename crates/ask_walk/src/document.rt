// The rule in one document, whose postings the cursors over lists are at, and the number of a phrase's starts there.
ghost use Rattle.std.specs.Prelude.{◌≤◌, ◌<◌, slice_index};
ghost use Rattle.ask_match.specs.Steps.{positions_in};
ghost use Rattle.ask_names.specs.Steps.{InSlots};
ghost use Rattle.ask_walk.specs.Steps.{cursors_in, CursorsOpened, DocumentMet, DocumentCounted};

use ask_match::ordered::ordered_here;
use ask_match::phrase::phrase_here;
use ask_match::starts::starts_here;
use ask_match::unordered::unordered_here;
use read_cursors::positions::Positions;
use read_cursors::postings::Postings;
use rules::rule::Rule;
use segment::ids::TokenPos;

// A cursor that no position remains to: what the room for cursors is filled with.
pub const NO_POSITIONS: Positions = Positions {
    at: 0,
    remaining: 0,
    pos: TokenPos(0),
};

// A cursor for each of n names, at the first position of its term.
fn open_names(
    bytes: &[u8],
    n: usize,
    slot: &[usize; 128],
    lists: &[Postings; 128],
    cursors: &mut [Positions; 128],
)
    requires { InSlots n slot.now }
    ensures { CursorsOpened bytes.now n (λ i. slice_index slot.now i) (cursors_in lists.now) (positions_in cursors.new) }
{
    for i in 0..n {
        cursors[i] = Positions::start(bytes, lists[slot[i]]);
    }
}

// A cursor for each of m terms, at its first position.
fn open_terms(bytes: &[u8], m: usize, lists: &[Postings; 128], cursors: &mut [Positions; 128])
    requires { m ≤ 128 }
    ensures { CursorsOpened bytes.now m (λ k. k) (cursors_in lists.now) (positions_in cursors.new) }
{
    for k in 0..m {
        cursors[k] = Positions::start(bytes, lists[k]);
    }
}

// Whether the document meets the rule: n names with the indices of their terms, m different terms and how often each is named. The three
// tables at the end are room for the rules' cursors and counts; what they hold on entry does not matter.
pub fn document_meets(
    bytes: &[u8],
    rule: Rule,
    n: usize,
    slot: &[usize; 128],
    m: usize,
    wanted: &[u32; 128],
    lists: &[Postings; 128],
    last: &mut [Positions; 128],
    first: &mut [Positions; 128],
    seen: &mut [u32; 128],
) -> bool
    requires { InSlots n slot.now × (m ≤ 128) }
    ensures { DocumentMet bytes.now rule n slot.now m wanted.now (cursors_in lists.now) result }
{
    match rule {
        Rule::Phrase => {
            open_names(bytes, n, slot, lists, last);
            phrase_here(bytes, n, last)
        }
        Rule::Ordered(window) => {
            open_names(bytes, n, slot, lists, last);
            ordered_here(bytes, n, window, last)
        }
        Rule::Unordered(window) => {
            open_terms(bytes, m, lists, last);
            unordered_here(bytes, m, window, wanted, last, first, seen)
        }
    }
}

// At how many starts the phrase of n names fits in the document. The table at the end is room for the cursors; what it holds on entry does
// not matter.
pub fn document_starts(
    bytes: &[u8],
    n: usize,
    slot: &[usize; 128],
    lists: &[Postings; 128],
    last: &mut [Positions; 128],
) -> u32
    requires { InSlots n slot.now × (0 < n) }
    ensures { DocumentCounted bytes.now n slot.now (cursors_in lists.now) result }
{
    open_names(bytes, n, slot, lists, last);
    starts_here(bytes, n, last)
}
