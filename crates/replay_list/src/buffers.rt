// Numbers read, and the lent buffers, as they are before a call and compared after it.
use crate::fields::number_at;

// The numbers from a place on.
pub fn read_numbers(bytes: &[u8], from: usize, numbers: &mut [u32]) {
    let mut at = from;
    for number in numbers.iter_mut() {
        *number = number_at(bytes, at);
        at = std::num::wrapping_add_usize(at, 4);
    }
}

// Place i holds 0xDEAD0000 + i.
pub fn fill(places: &mut [u32]) {
    let mut x: u32 = 0xDEAD0000;
    for place in places.iter_mut() {
        *place = x;
        x = std::num::wrapping_add_u32(x, 1);
    }
}

// Byte i holds (90 + i) mod 256.
pub fn fill_bytes(bytes: &mut [u8]) {
    let mut x: u8 = 90;
    for byte in bytes.iter_mut() {
        *byte = x;
        x = std::num::wrapping_add_u8(x, 1);
    }
}

// Whether a buffer begins with the places that it must have.
pub fn begins_with(buffer: &[u32], places: &[u32]) -> bool {
    buffer.starts_with(places)
}
