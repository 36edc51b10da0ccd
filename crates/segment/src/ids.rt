// Document ids and token positions (document 01: bars and steps). The source has two u32 aliases; here a document id passed for a
// position does not compile.
#[repr(C)]
#[derive(Clone, Copy)]
pub struct DocId(pub u32);

#[derive(Clone, Copy)]
pub struct TokenPos(pub u32);
