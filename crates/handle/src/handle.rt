// A handle is numbers by value, which a caller keeps beside the bytes and hands back.
ghost use Rattle.std.specs.Prelude.{◌≡◌, true, ◌↔◌};
ghost use Rattle.handle.specs.Handles.{accepted, refused_with, refused, layout_of, Usable};

use read_open::header::{Layout, fits};
use segment::refusal::{Numbers, Refusal};

// A refusal, or the level: 1 where the segment was opened, 2 where every list was decoded too. Then the layout. Of a refusal all after
// its three numbers are 0; of a layout the three are. It is handed to callers in C, so it is these fields and no enum.
#[repr(C)]
#[derive(Clone, Copy)]
pub struct Handle {
    pub kind: u32,
    pub which: u32,
    pub index: u64,
    pub level: u32,
    pub documents: u32,
    pub terms: u32,
    pub spare: u32,
    pub names: usize,
    pub metadata: usize,
    pub lists: usize,
}

// The handle of a segment that was accepted.
pub fn accepted(level: u32, at: Layout) -> Handle
    ensures { result ≡ accepted level at }
{
    Handle {
        kind: 0,
        which: 0,
        index: 0,
        level,
        documents: at.documents,
        terms: at.terms,
        spare: 0,
        names: at.names,
        metadata: at.metadata,
        lists: at.lists,
    }
}

// The handle of bytes that were refused, by the three numbers of a refusal, whichever they are.
pub fn refused_with(x: Numbers) -> Handle
    ensures { result ≡ refused_with x }
{
    let Numbers { kind, which, index } = x;
    Handle {
        kind,
        which,
        index,
        level: 0,
        documents: 0,
        terms: 0,
        spare: 0,
        names: 0,
        metadata: 0,
        lists: 0,
    }
}

// The handle of bytes that were refused.
pub fn refused(x: Refusal) -> Handle
    ensures { result ≡ refused x }
{
    refused_with(x.numbers())
}

// The layout that a handle carries.
pub fn layout_of(h: Handle) -> Layout
    ensures { result ≡ layout_of h }
{
    Layout {
        documents: h.documents,
        terms: h.terms,
        names: h.names,
        metadata: h.metadata,
        lists: h.lists,
    }
}

// Whether a call uses the handle: nobody vouches for it, but with a layout that fits every lookup stays inside the bytes.
pub fn usable(bytes: &[u8], h: Handle) -> bool
    ensures { (result ≡ true) ↔ Usable bytes.now h }
{
    (1..=2).contains(&h.level) && fits(bytes, layout_of(h))
}
