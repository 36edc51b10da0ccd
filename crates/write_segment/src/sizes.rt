// How many bytes the metadata takes; the posting lists are measured as they are checked. The writer measures before it stores: 13 carries
// the length that is needed, and leaves the slice as it was.
ghost use Rattle.std.specs.Prelude.{None, ◌≡◌, ◌≤◌, length};
ghost use Rattle.segment.specs.Metadata.{document};
ghost use Rattle.common.specs.Lists.{paired};
ghost use Rattle.segment.specs.Written.{metadata_bytes};

use leb128::varint::encoded_len;
use write_checks::measure::gap_from;

// The metadata's length.
pub fn metadata_len(ids: &[u32], lengths: &[u32]) -> usize
    requires { (length ids.now ≡ length lengths.now) × (length ids.now ≤ 16777216) }
    ensures { result ≡ length (metadata_bytes None (paired document ids.now lengths.now)) }
{
    let mut size: usize = 0;
    let mut previous = None;
    for (i, id) in ids.iter().enumerate() {
        size += encoded_len(gap_from(previous, *id)) + encoded_len(lengths[i]);
        previous = Some(*id);
    }
    size
}
