// The three questions, each asked of a segment that is opened for it.
ghost use Rattle.std.specs.Prelude.{◌≡◌};
ghost use Rattle.rules.specs.Kinds.{near_rule};
ghost use Rattle.ask_search.specs.Promise.{TextAnswered, TwoAnswered};

use ask_answer::layout::{answer_text, answer_two};
use ask_names::question::{check_question, check_two};
use read_open::open_segment::open_layout;
use rules::rule::Rule;
use segment::refusal::Refusal;

// Asks a segment for names in one text, by any of the rules.
pub fn search_text(
    bytes: &[u8],
    rule: Rule,
    text: &[u8],
    ends: &[u32],
    ids: &mut [u32],
) -> Result<usize, Refusal>
    ensures { TextAnswered bytes.now rule text.now ends.now ids.old result ids.new }
{
    check_question(text, ends)?;
    let at = open_layout(bytes)?;
    answer_text(bytes, at, false, rule, text, ends, ids)
}

// The documents that have the names at consecutive positions: how many, and their ids, rising; or the first refusal in document 01's
// order. No names: none.
pub fn phrase_match_strs(
    bytes: &[u8],
    text: &[u8],
    ends: &[u32],
    ids: &mut [u32],
) -> Result<usize, Refusal>
    ensures { TextAnswered bytes.now Rule.Phrase text.now ends.now ids.old result ids.new }
{
    search_text(bytes, Rule::Phrase, text, ends, ids)
}

// The rule of names within a window, in the order named or in any.
pub fn near_rule(ordered: bool, window: u32) -> Rule
    ensures { result ≡ near_rule ordered window }
{
    if ordered {
        Rule::Ordered(window)
    } else {
        Rule::Unordered(window)
    }
}

// The documents that have the names within a window, in the order named or in any: how many, and their ids, rising; or the first
// refusal in document 01's order. Under two names or a window of 0: none.
pub fn near_match_terms_strs(
    bytes: &[u8],
    text: &[u8],
    ends: &[u32],
    window: u32,
    ordered: bool,
    ids: &mut [u32],
) -> Result<usize, Refusal>
    ensures { TextAnswered bytes.now (near_rule ordered window) text.now ends.now ids.old result ids.new }
{
    search_text(bytes, near_rule(ordered, window), text, ends, ids)
}

// The documents that have two names within a window, in any order: how many, and their ids, rising; or the first refusal in document
// 01's order. A window of 0: none.
pub fn near_match(
    bytes: &[u8],
    a: &[u8],
    b: &[u8],
    window: u32,
    ids: &mut [u32],
) -> Result<usize, Refusal>
    ensures { TwoAnswered bytes.now window a.now b.now ids.old result ids.new }
{
    check_two(a, b)?;
    let at = open_layout(bytes)?;
    answer_two(bytes, at, false, Rule::Unordered(window), a, b, ids)
}
