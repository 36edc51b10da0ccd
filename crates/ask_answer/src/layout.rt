// A question put to bytes by a layout that fits them.
ghost use Rattle.std.specs.Prelude.{◌≡◌, true, [], ◌∷◌, ◌≤◌, length};
ghost use Rattle.segment.specs.Texts.{ends_fit, names};
ghost use Rattle.rules.specs.Kinds.{idle};
ghost use Rattle.read_open.specs.Opened.{Fits};
ghost use Rattle.ask_answer.specs.Promise.{LayoutAnswered};

use crate::names::answer_names;
use ask_names::lists::resolve;
use ask_names::slots::Names;
use read_open::header::Layout;
use read_terms::find::find_term;
use rules::rule::Rule;
use segment::refusal::Refusal;

// Whether a question decodes nothing: a phrase of no names, a near question of under two or with a window of 0.
pub fn is_idle(rule: Rule, n: usize) -> bool
    ensures { result ≡ idle rule n }
{
    match rule {
        Rule::Phrase => n == 0,
        Rule::Ordered(window) | Rule::Unordered(window) => n < 2 || window == 0,
    }
}

// The answer to a question with names in one text: no document where it is idle. `sure`: it is known that every list of the segment
// decodes.
pub fn answer_text(
    bytes: &[u8],
    at: Layout,
    sure: bool,
    rule: Rule,
    text: &[u8],
    ends: &[u32],
    ids: &mut [u32],
) -> Result<usize, Refusal>
    requires { Fits bytes.now at × (ends_fit 0 ends.now (length text.now) ≡ true) × (length ends.now ≤ 128) }
    ensures { LayoutAnswered bytes.now at sure rule (names 0 ends.now text.now) ids.old result ids.new }
{
    if is_idle(rule, ends.len()) {
        return Ok(0);
    }
    let mut found = Names::new();
    resolve(bytes, at, text, ends, &mut found);
    answer_names(bytes, at, sure, rule, &mut found, ids)
}

// The answer to a question with two names: no document where it is idle. `sure`: it is known that every list of the segment decodes.
pub fn answer_two(
    bytes: &[u8],
    at: Layout,
    sure: bool,
    rule: Rule,
    a: &[u8],
    b: &[u8],
    ids: &mut [u32],
) -> Result<usize, Refusal>
    requires { Fits bytes.now at }
    ensures { LayoutAnswered bytes.now at sure rule (a.now ∷ b.now ∷ []) ids.old result ids.new }
{
    if is_idle(rule, 2) {
        return Ok(0);
    }
    let mut found = Names::new();
    found.take(find_term(bytes, at, a));
    found.take(find_term(bytes, at, b));
    answer_names(bytes, at, sure, rule, &mut found, ids)
}
