// Write a pad out, then ask: the search is called on exactly the bytes that were written.
ghost use Rattle.claim_pad.specs.Promise.{PadWrittenThenAsked};

use ask_search::questions::phrase_match_strs;
use claim_joint::ask::Asked;
use pad_write::write::pad_write;
use segment::refusal::Refusal;

// Writes a pad out, then asks a phrase: the refusal to write, or the length written and the search's answer. `text` and `ends` are the
// names of the 128 sounds, `name` and `name_ends` those of the phrase.
pub fn write_pad_then_ask(
    pad: &[u32],
    text: &[u8],
    ends: &[u32],
    out: &mut [u8],
    name: &[u8],
    name_ends: &[u32],
    found: &mut [u32],
) -> Result<Asked, Refusal>
    ensures { PadWrittenThenAsked pad.now text.now ends.now out.old name.now name_ends.now found.old
        result out.new found.new }
{
    let written = pad_write(pad, text, ends, out)?;
    let answer = phrase_match_strs(&out[..written], name, name_ends, found);
    Ok(Asked { written, answer })
}
