// The documents that the lists of a phrase's terms have in common and that meet it, each with its count: counted, stored, ranked.
// The two buffers are the caller's, lent in C, so ids and counts stay two slices side by side.
ghost use Rattle.std.specs.Prelude.{◌≤◌, ◌<◌};
ghost use Rattle.ask_names.specs.Steps.{InSlots};
ghost use Rattle.ask_ranked.specs.Steps.{FitsSome, RoomChecked, ListsRanked};

use ask_answer::lists::{NO_POSTINGS, open_lists, walk_lists};
use ask_names::slots::Names;
use ask_walk::walk_starts::walk_starts;
use common::widths::long;
use rank::rank::rank;
use rules::rule::Rule;
use segment::refusal::Refusal;

// Kind 13 where a buffer has too few places for the documents found: for ids, then for counts. It carries the whole count. Every document
// found is in list 0, so buffers with a place for each of its postings have room; else a walk over an empty buffer counts.
fn check_room(bytes: &[u8], names: &Names, id_room: usize, count_room: usize) -> Result<(), Refusal>
    requires { InSlots names.now.taken names.now.slot × (0 < names.now.different) × (names.now.different ≤ 128) }
    ensures { RoomChecked bytes.now names.now id_room count_room result }
{
    let most = long(names.list[0].df);
    if most <= id_room && most <= count_room {
        return Ok(());
    }
    let found = walk_lists(bytes, Rule::Phrase, names, &mut []);
    if id_room < found {
        return Err(Refusal::NoRoom(1, found));
    }
    if count_room < found {
        return Err(Refusal::NoRoom(2, found));
    }
    Ok(())
}

// The documents that are in all lists and meet the phrase, the best first. Counted before written: a refusal leaves both buffers as they
// were.
pub fn rank_lists(
    bytes: &[u8],
    names: &Names,
    ids: &mut [u32],
    counts: &mut [u32],
) -> Result<usize, Refusal>
    requires { InSlots names.now.taken names.now.slot × (0 < names.now.different) × (names.now.different ≤ 128)
        × FitsSome bytes.now names.now }
    ensures { ListsRanked 0 bytes.now names.now ids.old counts.old result ids.new counts.new }
{
    check_room(bytes, names, ids.len(), counts.len())?;
    let mut lists = [NO_POSTINGS; 128];
    open_lists(bytes, names, &mut lists);
    let found = walk_starts(
        bytes,
        names.taken,
        &names.slot,
        names.different,
        &mut lists,
        ids,
        counts,
    );
    rank(ids, counts, found);
    Ok(found)
}
