// The pad changed: a bar saved, a bar erased (document 02, wish 6). specs/Promise.antt says what each leaves. Code, in this order:
//   put     a bar's words stored
//   erase   a bar erased, the words behind it moved down
//   save    a bar saved, the words behind its offset moved up
#![tactic(auto)]

pub mod erase;
pub mod put;
pub mod save;
