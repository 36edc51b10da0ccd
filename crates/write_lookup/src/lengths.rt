// The length of a document, over its ids and lengths side by side.
ghost use Rattle.std.specs.Prelude.{◌≡◌, length};
ghost use Rattle.segment.specs.Metadata.{document, length_of};
ghost use Rattle.common.specs.Lists.{paired};
ghost use Rattle.write_lookup.specs.Steps.{known_means, RisingByIndex};

use segment::ids::DocId;

// The length beside an id: at the hint, or else by binary search, as the ids rise strictly. The hint affects speed only.
pub fn known_len(ids: &[u32], lengths: &[u32], id: DocId, hint: usize) -> Option<u32>
    requires { RisingByIndex ids.now × (length ids.now ≡ length lengths.now) }
    ensures { known_means result ≡ length_of (paired document ids.now lengths.now) id.0 }
{
    if hint < ids.len() && ids[hint] == id.0 {
        return Some(lengths[hint]);
    }
    match ids.binary_search(&id.0) {
        Ok(at) => Some(lengths[at]),
        Err(_) => None,
    }
}
