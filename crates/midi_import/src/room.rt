// 13: the first of the nine buffers that is too short.
ghost use Rattle.std.specs.Prelude.{◌≡◌, ◌≤◌};
ghost use Rattle.midi_import.specs.Steps.{room_beside};

use segment::refusal::Refusal;
use segment::replies::ListTotals;

// Whether each list fits its buffer; a name has four bytes.
pub fn check_room(
    needed: ListTotals,
    ids: usize,
    lengths: usize,
    text: usize,
    ends: usize,
    posting_counts: usize,
    posting_ids: usize,
    position_counts: usize,
    positions: usize,
    velocities: usize,
) -> Result<(), Refusal>
    requires { needed.terms ≤ 128 }
    ensures { result ≡ room_beside needed ids lengths text ends posting_counts posting_ids position_counts positions velocities }
{
    if ids < needed.documents {
        return Err(Refusal::NoRoom(1, needed.documents));
    }
    if lengths < needed.documents {
        return Err(Refusal::NoRoom(2, needed.documents));
    }
    if text < 4 * needed.terms {
        return Err(Refusal::NoRoom(3, 4 * needed.terms));
    }
    if ends < needed.terms {
        return Err(Refusal::NoRoom(4, needed.terms));
    }
    if posting_counts < needed.terms {
        return Err(Refusal::NoRoom(5, needed.terms));
    }
    if posting_ids < needed.postings {
        return Err(Refusal::NoRoom(6, needed.postings));
    }
    if position_counts < needed.postings {
        return Err(Refusal::NoRoom(7, needed.postings));
    }
    if positions < needed.positions {
        return Err(Refusal::NoRoom(8, needed.positions));
    }
    if velocities < needed.positions {
        return Err(Refusal::NoRoom(9, needed.positions));
    }
    Ok(())
}
