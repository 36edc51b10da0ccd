// The documents that the lists of the names' terms have in common and that meet the rule: counted, and their ids stored.
ghost use Rattle.std.specs.Prelude.{◌≤◌, ◌<◌};
ghost use Rattle.ask_names.specs.Steps.{InSlots};
ghost use Rattle.ask_walk.specs.Steps.{cursors_in};
ghost use Rattle.ask_answer.specs.Steps.{Heads, ListsWalked, ListsAnswered};

use ask_names::slots::Names;
use ask_walk::walk::walk;
use common::widths::long;
use read_cursors::postings::Postings;
use rules::rule::Rule;
use segment::ids::DocId;
use segment::refusal::Refusal;

// A cursor that no posting remains to: what the room for cursors is filled with.
pub const NO_POSTINGS: Postings = Postings {
    at: 0,
    count: 0,
    remaining: 0,
    doc: DocId(0),
};

// A cursor at the first posting of each different term's list. The room is lent, as a result of its size would lie on the stack twice.
pub fn open_lists(bytes: &[u8], names: &Names, lists: &mut [Postings; 128])
    requires { names.now.different ≤ 128 }
    ensures { Heads bytes.now names.now.different names.now.list (cursors_in lists.new) }
{
    for k in 0..names.different {
        let list = names.list[k];
        lists[k] = Postings::start(bytes, list.start, list.df);
    }
}

// Returns how many documents are in all lists and meet the rule; stores the first of their ids from the buffer's front, as many as fit.
pub fn walk_lists(bytes: &[u8], rule: Rule, names: &Names, ids: &mut [u32]) -> usize
    requires { InSlots names.now.taken names.now.slot × (0 < names.now.different) × (names.now.different ≤ 128) }
    ensures { ListsWalked bytes.now rule names.now ids.old result ids.new }
{
    let mut lists = [NO_POSTINGS; 128];
    open_lists(bytes, names, &mut lists);
    walk(
        bytes,
        rule,
        names.taken,
        &names.slot,
        names.different,
        &names.wanted,
        &mut lists,
        ids,
    )
}

// The documents that are in all lists and meet the rule. Counted before written: a refusal leaves the buffer as it was, and kind 13
// carries the whole count. Every document found is in list 0, so where that has no more postings than the buffer has places, one walk
// fills the buffer; else a walk over an empty buffer counts first.
pub fn answer_lists(
    bytes: &[u8],
    rule: Rule,
    names: &Names,
    ids: &mut [u32],
) -> Result<usize, Refusal>
    requires { InSlots names.now.taken names.now.slot × (0 < names.now.different) × (names.now.different ≤ 128) }
    ensures { ListsAnswered 0 bytes.now rule names.now ids.old result ids.new }
{
    if ids.len() < long(names.list[0].df) {
        let count = walk_lists(bytes, rule, names, &mut []);
        if ids.len() < count {
            return Err(Refusal::NoRoom(1, count));
        }
    }
    Ok(walk_lists(bytes, rule, names, ids))
}
