// Records exchanged with two lists of numbers, index by index. Why exchanged: the writer takes two lists of u32, there is no heap to copy
// the records to, and everything that was lent must be as before on every outcome. Copied into the two lists, the records would overwrite
// what these held; exchanged, they keep it. The exchange is its own inverse, so one walk takes the records apart and puts everything back.
ghost use Rattle.std.specs.Prelude.{◌≡◌, length};
ghost use Rattle.write_records.specs.Steps.{three, exchanged, Least};

use segment::ids::DocId;

// Laid out as in C, and so is DocId: slices of these cross the C interface.
#[repr(C)]
#[derive(Clone, Copy)]
pub struct DocumentLength {
    pub id: DocId,
    pub len: u32,
}

// The least of three lengths.
fn shortest(a: usize, b: usize, c: usize) -> usize
    ensures { Least a b c result }
{
    a.min(b).min(c)
}

// Exchanges, index by index, a record's id with the number in `ids` and its length with the number in `lengths`, as far as the shortest of
// the three goes. Done twice, it changes nothing.
pub fn exchange(documents: &mut [DocumentLength], ids: &mut [u32], lengths: &mut [u32])
    ensures { three documents.new ids.new lengths.new ≡ exchanged documents.old ids.old lengths.old }
{
    let n = shortest(documents.len(), ids.len(), lengths.len());
    for i in 0..n {
        let document = &mut documents[i];
        let id = &mut ids[i];
        let len = &mut lengths[i];
        let taken = *document;
        document.id.0 = *id;
        document.len = *len;
        *id = taken.id.0;
        *len = taken.len;
    }
}
