// A question's names: not too many or too large, the ends in shape, each name UTF-8.
ghost use Rattle.std.specs.Prelude.{◌≡◌, true, length};
ghost use Rattle.segment.specs.Texts.{ends_fit, names};
ghost use Rattle.segment.specs.Steps.{checked};
ghost use Rattle.calls.specs.Questions.{check_names, check_question as question_checks, two_checks};

use common::widths::long;
use segment::refusal::{LIMIT, Refusal};
use segment::texts::ends_fit;
use utf8::characters::is_utf8;

// The most names that a question may have.
pub const NAMES: usize = 128;

// Each name is UTF-8.
fn check_texts(text: &[u8], ends: &[u32]) -> Result<(), Refusal>
    requires { ends_fit 0 ends.now (length text.now) ≡ true }
    ensures { result ≡ checked (check_names (names 0 ends.now text.now)) }
{
    let mut from: usize = 0;
    for &end in ends {
        let to = long(end);
        if !is_utf8(&text[from..to]) {
            return Err(Refusal::InvalidUtf8);
        }
        from = to;
    }
    Ok(())
}

// Kinds 12, 11 and 10.
pub fn check_question(text: &[u8], ends: &[u32]) -> Result<(), Refusal>
    ensures { result ≡ checked (question_checks text.now ends.now) }
{
    if LIMIT < text.len() || NAMES < ends.len() {
        return Err(Refusal::TooLarge);
    }
    if !ends_fit(ends, text.len()) {
        return Err(Refusal::ListShape);
    }
    check_texts(text, ends)
}

// Two names: kind 12 of both, then kind 10 of both. They come in two texts, so kind 11 cannot occur.
pub fn check_two(a: &[u8], b: &[u8]) -> Result<(), Refusal>
    ensures { result ≡ checked (two_checks a.now b.now) }
{
    if LIMIT < a.len() || LIMIT < b.len() {
        return Err(Refusal::TooLarge);
    }
    if !is_utf8(a) || !is_utf8(b) {
        return Err(Refusal::InvalidUtf8);
    }
    Ok(())
}
