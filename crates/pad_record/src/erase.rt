// A bar erased.
ghost use Rattle.pad_record.specs.Promise.{BarErased};

use common::widths::long;
use pad_words::check::is_whole;
use pad_words::place::place_of;
use segment::refusal::Refusal;

// How many hits the bar had, which is held no longer; the bars behind it move down, so that free words lie behind the last bar only. Or 20;
// 16, which leave every word as it was.
pub fn pad_erase(pad: &mut [u32], id: u32) -> Result<usize, Refusal>
    ensures { BarErased pad.old id result pad.new }
{
    if !is_whole(pad) {
        return Err(Refusal::BrokenPad);
    }
    let Ok(at) = place_of(pad, id) else {
        return Err(Refusal::UnknownBar);
    };
    let bars = pad[0];
    let total = pad[1];
    let hits = pad[at + 2];
    let count = long(hits);
    let end = 2 + 3 * long(bars) + 2 * long(total);
    pad.copy_within(at + (3 + 2 * count)..end, at);
    pad[0] = bars - 1;
    pad[1] = total - hits;
    Ok(count)
}
