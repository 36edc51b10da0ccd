// A segment checked once: opened, and with `check` every list decoded.
ghost use Rattle.std.specs.Prelude.{◌≡◌};
ghost use Rattle.read_open.specs.Opened.{OpenedAs};
ghost use Rattle.handle.specs.Handles.{opened_once, checked_once};
ghost use Rattle.handle.specs.Steps.{ListsChecked};

use crate::batches::{batch_size, check_batch};
use crate::handle::{Handle, accepted, refused};
use common::widths::long;
use read_open::header::Layout;
use read_open::open_segment::open_layout;
use segment::refusal::Refusal;

// Opens a segment: its handle at level 1, or the refusal.
pub fn open_once(bytes: &[u8]) -> Handle
    ensures { result ≡ opened_once bytes.now }
{
    match open_layout(bytes) {
        Ok(at) => accepted(1, at),
        Err(x) => refused(x),
    }
}

// Decodes every list of an open segment, batch by batch in the directory's order; the first refusal stands.
pub fn decode_all(bytes: &[u8], at: Layout) -> Result<(), Refusal>
    requires { OpenedAs bytes.now at }
    ensures { ListsChecked bytes.now at result }
{
    let terms = long(at.terms);
    let mut from: usize = 0;
    // it moves by batches, and the last one may be shorter
    while from < terms {
        let m = batch_size(terms - from);
        check_batch(bytes, at, from, m)?;
        from += m;
    }
    Ok(())
}

// Opens a segment and decodes every list: its handle at level 2, or the first refusal. A handle is no Result, so `?` has no place here.
pub fn check(bytes: &[u8]) -> Handle
    ensures { result ≡ checked_once bytes.now }
{
    let at = match open_layout(bytes) {
        Ok(at) => at,
        Err(x) => {
            return refused(x);
        }
    };
    match decode_all(bytes, at) {
        Ok(()) => accepted(2, at),
        Err(x) => refused(x),
    }
}
