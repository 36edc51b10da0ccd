// What every crate shares; it depends on none. Read in this order:
//   specs/Elements.antt   membership in a list, and a list that rises
//   specs/Members.antt    which elements of a list pass a test
//   specs/Lists.antt      two lists side by side, a list cut into parts and joined again
//   specs/Slices.antt     a lent slice before and after a call, as contracts name it
//   specs/Stores.antt     what a function that stores into a lent slice leaves there
//   widths                casts that lose nothing
// proofs/ has the laws of loops, lists, bytes and stores that the crates above cite.
#![tactic(auto)]

pub mod widths;
