// The bars' ids and lengths, and of each sound its name, where the name ends, and how many postings it has. Each buffer is handed in as
// long as what is stored.
ghost use Rattle.std.specs.Prelude.{◌≡◌, map, ◌+◌, ◌*◌, ◌≤◌, ◌<◌, length, replicate};
ghost use Rattle.common.specs.Lists.{joined};
ghost use Rattle.common.specs.Stores.{Stored};
ghost use Rattle.midi_bars.specs.Bars.{rising_from, name_of};
ghost use Rattle.midi_lists.specs.Heads.{heard, counts_of, fours};
ghost use Rattle.midi_lists.specs.Promise.{CountsFit, HeadsFit, HeadsPut};

// The ids of the bars: 0, 1, 2, ..
fn put_ids(ids: &mut [u32])
    requires { length ids.old ≤ 65536 }
    ensures { ids.new ≡ rising_from 0 (length ids.old) }
{
    for (i, id) in ids.iter_mut().enumerate() {
        *id = i as u32;
    }
}

// The lengths of the bars, all the same.
fn put_lengths(lengths: &mut [u32], steps: u32)
    ensures { lengths.new ≡ replicate (length lengths.old) steps }
{
    lengths.fill(steps);
}

// Where the names end: each has four bytes.
fn put_ends(ends: &mut [u32])
    requires { length ends.old ≤ 128 }
    ensures { ends.new ≡ fours (length ends.old) }
{
    for (i, end) in ends.iter_mut().enumerate() {
        *end = (4 * (i + 1)) as u32;
    }
}

// The name of one sound; answers the offset past it.
fn put_name(text: &mut [u8], at: usize, note: usize) -> usize
    requires { (note < 128) × (at + 4 ≤ length text.old) }
    ensures { Stored (name_of note) at text.old result text.new }
{
    text[at] = b'n';
    text[at + 1] = (48 + note / 100) as u8;
    text[at + 2] = (48 + note / 10 % 10) as u8;
    text[at + 3] = (48 + note % 10) as u8;
    at + 4
}

// The names of the sounds, one behind the other.
fn put_names(postings: &[u64; 128], text: &mut [u8])
    requires { length text.old ≡ 4 * length (heard postings.now) }
    ensures { text.new ≡ joined (map name_of (heard postings.now)) }
{
    let mut at: usize = 0;
    for (note, count) in postings.iter().enumerate() {
        if 0 < *count {
            at = put_name(text, at, note);
        }
    }
}

// How many postings each sound has.
fn put_counts(postings: &[u64; 128], counts: &mut [u32])
    requires { CountsFit postings.now counts.old }
    ensures { counts.new ≡ counts_of postings.now }
{
    let mut at: usize = 0;
    for count in postings {
        if 0 < *count {
            counts[at] = *count as u32;
            at += 1;
        }
    }
}

// The five lists.
pub fn put_heads(
    postings: &[u64; 128],
    steps: u32,
    ids: &mut [u32],
    lengths: &mut [u32],
    text: &mut [u8],
    ends: &mut [u32],
    counts: &mut [u32],
)
    requires { HeadsFit postings.now ids.old text.old ends.old counts.old }
    ensures { HeadsPut postings.now steps ids.old lengths.old
        ids.new lengths.new text.new ends.new counts.new }
{
    put_ids(ids);
    put_lengths(lengths, steps);
    put_names(postings, text);
    put_ends(ends);
    put_counts(postings, counts);
}
