// The static library behind include/pstp.h: an export for each function of crate pstp, under the same name and with the same promise. A
// slice is passed as a pointer and a length; the structs are `#[repr(C)]`. The modules are those of pstp.
#![tactic(auto)]

pub mod ask;
pub mod handles;
pub mod lookup;
pub mod midi;
pub mod pad;
pub mod read;
pub mod records;
pub mod show;
pub mod write;
