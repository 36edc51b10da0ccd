// The ranked answer for names that are resolved: their lists decoded, the rarest put first, the documents found.
ghost use Rattle.ask_names.specs.Lists.{ListsKept};
ghost use Rattle.ask_answer.specs.Steps.{NamedBy};
ghost use Rattle.ask_ranked.specs.Steps.{NamesRanked};

use crate::lists::rank_lists;
use ask_answer::names::check_lists;
use ask_names::slots::Names;
use read_open::header::Layout;
use segment::refusal::Refusal;

// The ranked answer for resolved names of a phrase that is not idle. The names' numbers are used up; each list stands where it stood.
pub fn rank_names(
    bytes: &[u8],
    at: Layout,
    names: &mut Names,
    ids: &mut [u32],
    counts: &mut [u32],
) -> Result<usize, Refusal>
    requires { NamedBy bytes.now at names.old }
    ensures answered { NamesRanked bytes.now at names.old ids.old counts.old result ids.new counts.new }
    ensures kept { ListsKept names.old names.new }
{
    check_lists(bytes, at, false, &names.list[..names.different])?;
    if names.absent {
        return Ok(0);
    }
    let b = names.lead_with_rarest();
    let answer = rank_lists(bytes, names, ids, counts);
    names.list.swap(0, b);
    answer
}
