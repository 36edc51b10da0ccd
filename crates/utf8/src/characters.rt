// UTF-8 (RFC 3629) by the grammar of its section 4, one character after the other.
ghost use Rattle.std.specs.Prelude.{◌≡◌, [], ◌∷◌, drop};
ghost use Rattle.utf8.specs.Utf8.{utf8, char_length, starts, range, utf8_tail};

// Whether the octet at an offset is in a range.
fn one(s: &[u8], at: usize, low: u8, high: u8) -> bool
    ensures { result ≡ starts (range low high ∷ []) (drop at s.now) }
{
    let Some(&b) = s.get(at) else {
        return false;
    };
    low <= b && b <= high
}

// An octet of each of two ranges.
fn two(s: &[u8], at: usize, low: u8, high: u8, low1: u8, high1: u8) -> bool
    ensures { result ≡ starts (range low high ∷ range low1 high1 ∷ []) (drop at s.now) }
{
    one(s, at, low, high) && one(s, at + 1, low1, high1)
}

// An octet of each of two ranges, and a tail.
fn three(s: &[u8], at: usize, low: u8, high: u8, low1: u8, high1: u8) -> bool
    ensures { result ≡ starts (range low high ∷ range low1 high1 ∷ utf8_tail ∷ []) (drop at s.now) }
{
    one(s, at, low, high) && two(s, at + 1, low1, high1, 0x80, 0xBF)
}

// An octet of each of two ranges, and two tails.
fn four(s: &[u8], at: usize, low: u8, high: u8, low1: u8, high1: u8) -> bool
    ensures { result ≡ starts (range low high ∷ range low1 high1 ∷ utf8_tail ∷ utf8_tail ∷ []) (drop at s.now) }
{
    one(s, at, low, high) && three(s, at + 1, low1, high1, 0x80, 0xBF)
}

// The number of octets of the character at an offset, or 0 where there is none: UTF8-char, row by row.
#[tactic(auto, unfolding(crate::specs::Utf8::char_length, crate::specs::Utf8::sequences, crate::specs::Utf8::first_of))]
pub fn char_len(s: &[u8], at: usize) -> usize
    ensures { result ≡ char_length (drop at s.now) }
{
    if one(s, at, 0x00, 0x7F) {
        return 1;
    }
    if two(s, at, 0xC2, 0xDF, 0x80, 0xBF) {
        return 2;
    }
    if three(s, at, 0xE0, 0xE0, 0xA0, 0xBF) {
        return 3;
    }
    if three(s, at, 0xE1, 0xEC, 0x80, 0xBF) {
        return 3;
    }
    if three(s, at, 0xED, 0xED, 0x80, 0x9F) {
        return 3;
    }
    if three(s, at, 0xEE, 0xEF, 0x80, 0xBF) {
        return 3;
    }
    if four(s, at, 0xF0, 0xF0, 0x90, 0xBF) {
        return 4;
    }
    if four(s, at, 0xF1, 0xF3, 0x80, 0xBF) {
        return 4;
    }
    if four(s, at, 0xF4, 0xF4, 0x80, 0x8F) {
        return 4;
    }
    0
}

// The bytes are a text in UTF-8.
pub fn is_utf8(s: &[u8]) -> bool
    ensures { result ≡ utf8 s.now }
{
    let mut at = 0;
    // `at` moves on by a character's length, so this is no `for`.
    while at < s.len() {
        let k = char_len(s, at);
        if k == 0 {
            return false;
        }
        at += k;
    }
    true
}
