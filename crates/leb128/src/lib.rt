// Stored numbers, unsigned LEB128 (DWARF 5). Read in this order:
//   specs/Leb128.antt    the numbers as DWARF decodes and encodes them, and which of them document 01 stores
//   specs/Claims.antt    what is claimed of that definition
//   varint               the reader, which returns the value and the advanced reader, and the writer
#![tactic(auto)]

pub mod varint;
