// The answer for names that are resolved: their lists decoded, the rarest put first, the documents found.
ghost use Rattle.ask_names.specs.Lists.{ListsInside, ListsKept};
ghost use Rattle.ask_answer.specs.Steps.{ListsPassed, NamedBy, NamesAnswered};

use crate::lists::answer_lists;
use ask_names::lists::decode_lists;
use ask_names::slots::Names;
use read_open::header::Layout;
use read_terms::find::TermList;
use read_terms::together::lists_decode;
use rules::rule::Rule;
use segment::refusal::Refusal;

// Decodes lists, one after the other, and returns the first refusal; nothing is decoded where it is known that all lists decode. First all
// lists are checked side by side: where that is not sure of them, they are decoded one by one.
pub fn check_lists(bytes: &[u8], at: Layout, sure: bool, lists: &[TermList]) -> Result<(), Refusal>
    requires { ListsInside bytes.now at lists.now }
    ensures { ListsPassed bytes.now at sure lists.now result }
{
    if sure || lists_decode(bytes, at, lists) {
        return Ok(());
    }
    decode_lists(bytes, at, lists)
}

// The answer for resolved names of a question that is not idle. `sure`: it is known that every list of the segment decodes. The names'
// numbers are used up; each list stands where it stood.
pub fn answer_names(
    bytes: &[u8],
    at: Layout,
    sure: bool,
    rule: Rule,
    names: &mut Names,
    ids: &mut [u32],
) -> Result<usize, Refusal>
    requires { NamedBy bytes.now at names.old }
    ensures answered { NamesAnswered bytes.now at sure rule names.old ids.old result ids.new }
    ensures kept { ListsKept names.old names.new }
{
    check_lists(bytes, at, sure, &names.list[..names.different])?;
    if names.absent {
        return Ok(0);
    }
    let b = names.lead_with_rarest();
    let answer = answer_lists(bytes, rule, names, ids);
    names.list.swap(0, b);
    answer
}
