// The checksum of document 01's segments, CRC-32 (IEEE 802.3). Read in this order:
//   specs/Crc32.antt     what the checksum of a list of bytes is, from the standard
//   specs/Parts.antt     the same division by one coefficient, by one byte and by many, which the code's functions promise
//   specs/Formula.antt   the same by document 01's numbers and eight steps for each byte
//   specs/Claims.antt    what is claimed: the division divides, and the formula and a remainder that is carried on agree with it
//   checksum             the code, to be read beside the standard's page
#![tactic(auto)]

pub mod checksum;
