// The lengths of a block of documents, by id modulo 1024: a block ends before the first document whose place is taken. An entry names its
// document, so what older blocks left in the table stays true, and nothing has to be cleared. An empty place reads as taken by document 0:
// where the documents start with it, it is a block by itself.
ghost use Rattle.std.specs.Prelude.{IfSome, ◌≡◌, ◌+◌, ◌*◌, ◌^◌};
ghost use Rattle.read_many.specs.Steps.{LengthTold, LengthKnown, BlockFilled};

use common::widths::{long, wide};
use read_cursors::documents::Documents;

// An entry of the table: the length in its low 32 bits, the id above them. An empty place has length 0, which says nothing: no posting
// of a document of length 0 is in order.
fn entry_of(id: u32, len: u32) -> u64
    ensures { result ≡ id * 2 ^ 32 + len }
{
    wide(id) * 4294967296 + wide(len)
}

// The length of a document from the entry at its place; none where the entry is of another document, or empty.
fn length_in(entry: u64, doc: u32) -> Option<u32>
    ensures { IfSome result (LengthTold entry doc) }
{
    let len = (entry % 4294967296) as u32;
    if entry / 4294967296 != wide(doc) || len == 0 {
        return None;
    }
    Some(len)
}

// The length of a document if the table has it.
pub fn length_of(table: &[u64; 1024], doc: u32) -> Option<u32>
    ensures { IfSome result (LengthKnown table.now doc) }
{
    length_in(table[long(doc % 1024)], doc)
}

// The documents from a cursor on put into the table, up to the first whose place one of them has already (document 0 has the empty ones
// too); the cursor at that one.
pub fn fill_block(meta: &[u8], from: Documents, table: &mut [u64; 1024]) -> Documents
    ensures { BlockFilled meta.now from result table.old table.new }
{
    let first = from.id;
    let mut c = from;
    while 0 < c.remaining {
        let place = long(c.id.0 % 1024);
        if first.0 < c.id.0 && wide(first.0) <= table[place] / 4294967296 {
            return c;
        }
        table[place] = entry_of(c.id.0, c.len);
        c = c.advance(meta);
    }
    c
}

// The id that the documents of a block are below, from the cursor behind it.
pub fn limit_of(behind: Documents) -> u64 {
    if behind.remaining == 0 {
        return 4294967296;
    }
    wide(behind.id.0)
}
