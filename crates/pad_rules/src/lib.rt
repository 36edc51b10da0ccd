// The rules for hits as code: the order of two hits (order), and the tests of the lists handed to saving (lists).
#![tactic(auto)]

pub mod lists;
pub mod order;
