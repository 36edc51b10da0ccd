// The names of a question resolved by a layout that fits the bytes, and the list of every different term decoded, in the order named.
ghost use Rattle.read_open.specs.Opened.{Fits};
ghost use Rattle.std.specs.Prelude.{◌≡◌, true, ◌≤◌, length};
ghost use Rattle.segment.specs.Texts.{ends_fit, names};
ghost use Rattle.ask_names.specs.Steps.{no_slots, NamesResolved};
ghost use Rattle.ask_names.specs.Lists.{ListsInside, lists_decoded};

use crate::slots::Names;
use common::widths::long;
use read_open::header::Layout;
use read_terms::find::{TermList, decode_postings, find_term};
use segment::refusal::Refusal;

// Resolves each name of a text. The names are lent, as a result of their size would lie on the stack twice.
pub fn resolve(bytes: &[u8], at: Layout, text: &[u8], ends: &[u32], found: &mut Names)
    requires { Fits bytes.now at × (ends_fit 0 ends.now (length text.now) ≡ true) × (length ends.now ≤ 128) × (found.old ≡ no_slots) }
    ensures { NamesResolved bytes.now at (names 0 ends.now text.now) found.new }
{
    let mut from: usize = 0;
    for &end in ends {
        let to = long(end);
        found.take(find_term(bytes, at, &text[from..to]));
        from = to;
    }
}

// Decodes lists, one after the other, and returns the first refusal.
pub fn decode_lists(bytes: &[u8], at: Layout, lists: &[TermList]) -> Result<(), Refusal>
    requires { ListsInside bytes.now at lists.now }
    ensures { result ≡ lists_decoded bytes.now at lists.now }
{
    for &list in lists {
        decode_postings(bytes, at, list)?;
    }
    Ok(())
}
