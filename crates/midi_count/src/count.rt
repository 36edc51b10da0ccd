// The counting pass: how many bars there are, and how many postings and positions each sound has.
ghost use Rattle.std.specs.Prelude.{◌≡◌, ◌≤◌};
ghost use Rattle.midi_read.specs.Files.{grid};
ghost use Rattle.midi_count.specs.Tallies.{fresh, opens};
ghost use Rattle.midi_count.specs.Promise.{zeros, Countable, Counts, InBar, Notable, Noted};

use midi_read::track::{Reader, Step};
use segment::refusal::Refusal;

// 1 for a step that is not the sound's last one.
pub fn is_fresh(last: u64, step: u64) -> u64
    requires { step ≤ 4194304 }
    ensures { result ≡ fresh last step }
{
    u64::from(last != step + 1)
}

// 1 for a step in a bar that is not the one of the sound's last step. The step's bar is handed in, so that nothing is divided; the step
// itself serves the contract.
pub fn does_open(last: u64, step: u64, bar: u64, steps: u64) -> u64
    requires { InBar step bar steps }
    ensures { result ≡ opens last step steps }
{
    let first = bar * steps;
    u64::from(last <= first || first + steps < last)
}

// What is kept of each sound: its last step plus one, 0 for none, and how many postings and positions it has.
#[derive(Drop)]
pub struct Tables {
    pub last: [u64; 128],
    pub postings: [u64; 128],
    pub positions: [u64; 128],
}

impl Tables {
    // Before the first hit.
    pub fn empty() -> Tables
        ensures { result ≡ record { last = zeros 128; postings = zeros 128; positions = zeros 128 } }
    {
        Tables {
            last: [0; 128],
            postings: [0; 128],
            positions: [0; 128],
        }
    }

    // A hit of a sound on a step, noted.
    fn note_hit(&mut self, note: usize, step: u64, bar: u64, steps: u64)
        requires { Notable note step bar steps self.old.postings self.old.positions }
        ensures { Noted note step steps self.old.last self.old.postings self.old.positions
            self.new.last self.new.postings self.new.positions }
    {
        self.postings[note] += does_open(self.last[note], step, bar, steps);
        self.positions[note] += is_fresh(self.last[note], step);
        self.last[note] = step + 1;
    }
}

// The hits of a file whose header and heading were read, counted; the tables are handed in empty.
pub fn count(s: &[u8], ticks: u64, steps: u64, tables: &mut Tables) -> Result<u64, Refusal>
    requires { Countable s.now ticks steps tables.old.postings tables.old.positions }
    ensures { Counts (grid ticks steps) s.now tables.old.last tables.old.postings tables.old.positions result
        tables.new.last tables.new.postings tables.new.positions }
{
    let mut reader = Reader {
        at: 22,
        running: 0,
        tick: 0,
    };
    let mut bars: u64 = 0;
    // The events say where the next one stands and which is the last, so this is no `for`.
    loop {
        match reader.step(s)? {
            Step::Sounds(h, next) => {
                let step = h.tick / ticks;
                let bar = step / steps;
                if 65535 < bar {
                    return Err(Refusal::BarTooFar);
                }
                let note = h.note as usize;
                tables.note_hit(note, step, bar, steps);
                bars = bars.max(bar + 1);
                reader = next;
            }
            Step::Silent(next) => {
                reader = next;
            }
            Step::Ends(past) => {
                if past == s.len() {
                    return Ok(bars);
                }
                return Err(Refusal::MidiFile(past));
            }
        }
    }
}
