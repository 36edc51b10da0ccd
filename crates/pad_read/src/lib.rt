// What a pad answers without being changed: a bar read back (read), and the number of hits on the display (hits; document 02, wish 7).
#![tactic(auto)]

pub mod hits;
pub mod read;
