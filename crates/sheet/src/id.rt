// A bar's id, from decimal digits.

// An id has at least one digit, and is below 2^32.
pub fn read_id(word: &[u8]) -> Option<u32> {
    if word.is_empty() {
        return None;
    }
    let mut id: u32 = 0;
    for &b in word {
        if !b.is_ascii_digit() {
            return None;
        }
        id = id.checked_mul(10)?.checked_add(u32::from(b - b'0'))?;
    }
    Some(id)
}
