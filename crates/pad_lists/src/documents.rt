// Ids and lengths of the bars, by rising id as they stand in the pad.
ghost use Rattle.pad_lists.specs.Steps.{DocumentsFit, DocumentsGathered};

use common::widths::long;

// The bars' ids and lengths, at the front of two lists.
pub fn gather_documents(pad: &[u32], ids: &mut [u32; 256], lengths: &mut [u32; 256])
    requires { DocumentsFit pad.now ids.old lengths.old }
    ensures { DocumentsGathered pad.now ids.new lengths.new }
{
    let bars = long(pad[0]);
    let mut at = 2;
    for i in 0..bars {
        ids[i] = pad[at];
        lengths[i] = pad[at + 1];
        at += 3 + 2 * long(pad[at + 2]);
    }
}
