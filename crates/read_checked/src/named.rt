// The list of a name, by a handle.
ghost use Rattle.handle.specs.Handles.{Usable};
ghost use Rattle.read_checked.specs.Steps.{ListNamed};

use handle::handle::{Handle, layout_of};
use read_terms::find::{decode_postings, find_term};
use read_terms::terms::check_name;
use segment::refusal::Refusal;

// Where a list starts in the segment, and how many postings it has.
#[derive(Clone, Copy)]
pub struct ListPlace {
    pub start: usize,
    pub df: u32,
}

// The name checked, its list found; none for an unknown term. A list of a segment that was only opened is decoded here; at level 2 every
// list is known to decode.
pub fn named_list(bytes: &[u8], h: Handle, name: &[u8]) -> Result<Option<ListPlace>, Refusal>
    requires { Usable bytes.now h }
    ensures { ListNamed bytes.now h name.now result }
{
    check_name(name)?;
    let at = layout_of(h);
    let Some(list) = find_term(bytes, at, name) else {
        return Ok(None);
    };
    if h.level != 2 {
        decode_postings(bytes, at, list)?;
    }
    Ok(Some(ListPlace {
        start: list.start,
        df: list.df,
    }))
}
