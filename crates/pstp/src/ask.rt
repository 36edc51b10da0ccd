// The searches. Each answers first: how many documents meet the question, and their ids in a buffer, rising or the best first; or a
// refusal.
ghost use Rattle.rules.specs.Kinds.{near_rule};
ghost use Rattle.ask_ranked.specs.Promise.{RankedAnswered};
ghost use Rattle.ask_search.specs.Promise.{TextAnswered, TwoAnswered};
ghost use Rattle.c_reply.specs.Replies.{Replied, counted_reply};

use ask_ranked::questions::phrase_match_ranked;
use ask_search::questions::{near_match, near_match_terms_strs, phrase_match_strs};
use c_reply::reply::{Reply, of_counted};
use rules::rule::Rule;

// first: the number of documents in which the names have consecutive positions; their ids, rising.
pub fn pstp_phrase_match_strs(bytes: &[u8], text: &[u8], ends: &[u32], ids: &mut [u32]) -> Reply
    ensures { Replied counted_reply (λ a. TextAnswered bytes.now Rule.Phrase text.now ends.now ids.old a ids.new) result }
{
    of_counted(phrase_match_strs(bytes, text, ends, ids))
}

// first: the number of documents in which two names are within a window, in any order; their ids, rising.
pub fn pstp_near_match(bytes: &[u8], a: &[u8], b: &[u8], window: u32, ids: &mut [u32]) -> Reply
    ensures { Replied counted_reply (λ c. TwoAnswered bytes.now window a.now b.now ids.old c ids.new) result }
{
    of_counted(near_match(bytes, a, b, window, ids))
}

// first: the number of documents in which the names are within a window, in the order named or in any; their ids, rising.
pub fn pstp_near_match_terms_strs(
    bytes: &[u8],
    text: &[u8],
    ends: &[u32],
    window: u32,
    ordered: bool,
    ids: &mut [u32],
) -> Reply
    ensures { Replied counted_reply (λ a. TextAnswered bytes.now (near_rule ordered window) text.now ends.now ids.old a
        ids.new) result }
{
    of_counted(near_match_terms_strs(bytes, text, ends, window, ordered, ids))
}

// first: the number of documents in which the names have consecutive positions; their ids and beside each at how many starts, the best
// first.
pub fn pstp_phrase_match_ranked(
    bytes: &[u8],
    text: &[u8],
    ends: &[u32],
    ids: &mut [u32],
    counts: &mut [u32],
) -> Reply
    ensures { Replied counted_reply (λ a. RankedAnswered bytes.now text.now ends.now ids.old counts.old a ids.new
        counts.new) result }
{
    of_counted(phrase_match_ranked(bytes, text, ends, ids, counts))
}
