// The three questions, asked with a handle. At level 1 the lists of the names are decoded for each question, at level 2 they are not.
ghost use Rattle.rules.specs.Kinds.{near_rule};
ghost use Rattle.ask_checked.specs.Promise.{TextChecked, TwoChecked};

use ask_answer::layout::{answer_text, answer_two};
use ask_names::question::{check_question, check_two};
use ask_search::questions::{near_match, near_rule, search_text};
use handle::handle::{Handle, layout_of, usable};
use rules::rule::Rule;
use segment::refusal::Refusal;

// Names in one text, by any of the rules.
fn search_text_checked(
    bytes: &[u8],
    h: Handle,
    rule: Rule,
    text: &[u8],
    ends: &[u32],
    ids: &mut [u32],
) -> Result<usize, Refusal>
    ensures { TextChecked bytes.now h rule text.now ends.now ids.old result ids.new }
{
    if usable(bytes, h) {
        check_question(text, ends)?;
        return answer_text(bytes, layout_of(h), h.level == 2, rule, text, ends, ids);
    }
    search_text(bytes, rule, text, ends, ids)
}

// phrase_match_strs, with a handle.
pub fn phrase_match_strs_checked(
    bytes: &[u8],
    h: Handle,
    text: &[u8],
    ends: &[u32],
    ids: &mut [u32],
) -> Result<usize, Refusal>
    ensures { TextChecked bytes.now h Rule.Phrase text.now ends.now ids.old result ids.new }
{
    search_text_checked(bytes, h, Rule::Phrase, text, ends, ids)
}

// near_match_terms_strs, with a handle.
pub fn near_match_terms_strs_checked(
    bytes: &[u8],
    h: Handle,
    text: &[u8],
    ends: &[u32],
    window: u32,
    ordered: bool,
    ids: &mut [u32],
) -> Result<usize, Refusal>
    ensures { TextChecked bytes.now h (near_rule ordered window) text.now ends.now ids.old result ids.new }
{
    search_text_checked(bytes, h, near_rule(ordered, window), text, ends, ids)
}

// near_match, with a handle.
pub fn near_match_checked(
    bytes: &[u8],
    h: Handle,
    a: &[u8],
    b: &[u8],
    window: u32,
    ids: &mut [u32],
) -> Result<usize, Refusal>
    ensures { TwoChecked bytes.now h window a.now b.now ids.old result ids.new }
{
    if usable(bytes, h) {
        check_two(a, b)?;
        return answer_two(
            bytes,
            layout_of(h),
            h.level == 2,
            Rule::Unordered(window),
            a,
            b,
            ids,
        );
    }
    near_match(bytes, a, b, window, ids)
}
