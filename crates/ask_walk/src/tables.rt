// Cursors over lists in a lent table: the one over the list with index k is at place k. The table is lent, so that it is not copied.
ghost use Rattle.std.specs.Prelude.{◌<◌, length};
ghost use Rattle.ask_walk.specs.Steps.{cursors_in, SoughtList};

use read_cursors::postings::Postings;

// Advances the cursor with index k to its first posting whose document is at least the target, and returns it.
pub fn seek_list(bytes: &[u8], lists: &mut [Postings], k: usize, target: u64) -> Postings
    requires { k < length lists.old }
    ensures { SoughtList bytes.now target k (cursors_in lists.old) (cursors_in lists.new) result }
{
    let here = lists[k].seek(bytes, target);
    lists[k] = here;
    here
}
