// What the tables of the counting pass add up to.
ghost use Rattle.std.specs.Prelude.{◌≡◌, length};
ghost use Rattle.midi_lists.specs.Heads.{heard};
ghost use Rattle.midi_lists.specs.Promise.{Begins, Summable};

// Where each sound's part begins when the parts stand one behind the other; answers where the last one ends.
pub fn begin(table: &[u64; 128], starts: &mut [u64; 128]) -> u64
    requires { Summable table.now starts.old }
    ensures { Begins table.now result starts.new }
{
    let mut at: u64 = 0;
    for (note, start) in starts.iter_mut().enumerate() {
        *start = at;
        at += table[note];
    }
    at
}

// How many sounds have a posting.
pub fn count_sounds(postings: &[u64; 128]) -> usize
    ensures { result ≡ length (heard postings.now) }
{
    let mut sounds: usize = 0;
    for count in postings {
        if 0 < *count {
            sounds += 1;
        }
    }
    sounds
}
