// The pad as a plain map from id to bar (document 02, wishes 6 and 9), whatever holds it. Read specs/ in this order:
//   Bars      a hit, a bar, the map: bars by rising id
//   Rules     what saving asks of a bar's hits, in words and as tests
//   Acts      save, erase, read back and write out on the map, each with its refusals in document 02's order
//   Claims    what is claimed of these definitions; proofs/ proves it
// Crate pad_words says how a map is held in words. The only code here is the type that specs/ and the code of the crates above share.

#![tactic(auto)]

// Where a hit stands in its bar, whatever its velocity: by sound, then step.
#[derive(Clone, Copy, PartialEq, Eq, PartialOrd, Ord)]
pub struct Key {
    pub sound: u32,
    pub step: u32,
}
