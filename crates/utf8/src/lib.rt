// The encoding of names, UTF-8 (RFC 3629). Read in this order:
//   specs/Utf8.antt      what a text in UTF-8 is, from the RFC's section 3; its grammar (section 4) as a test; decoding
//   specs/Claims.antt    that these agree
//   specs/Promise.antt   what `first_characters` promises
//   characters           the test, character by character
//   prefix               the first characters of a text
#![tactic(auto)]

pub mod characters;
pub mod prefix;
