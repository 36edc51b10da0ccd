// Events of a track, one after the other.
ghost use Rattle.std.specs.Prelude.{◌≡◌};
ghost use Rattle.midi_read.specs.Files.{number_from, byte, low_byte, one_data_byte, is_hit, exclusive, message, skipped, meta, read_event};
ghost use Rattle.midi_read.specs.Promise.{Within};

use segment::refusal::Refusal;

// A place in a file, where a delta time stands: the running status, 0 for none, and the tick so far.
#[derive(Clone, Copy)]
pub struct Reader {
    pub at: usize,
    pub running: u32,
    pub tick: u64,
}

// A note-on with velocity above 0.
#[derive(Clone, Copy)]
pub struct Hit {
    pub tick: u64,
    pub note: u32,
    pub velocity: u32,
}

// What stands at a reader: a hit or another event, each with the reader moved on past it; or the end of the track, with the place past it.
#[derive(Clone, Copy)]
pub enum Step {
    Sounds(Hit, Reader),
    Silent(Reader),
    Ends(usize),
}

// A variable-length number, and the place past it.
#[derive(Clone, Copy)]
pub struct Number {
    pub value: u32,
    pub next: usize,
}

// A variable-length number: one to four bytes, seven bits to a byte, the high ones first, and the high bit set on every byte but the last.
fn number_at(s: &[u8], at: usize) -> Option<Number>
    ensures { result ≡ number_from 4 0 s.now at }
{
    let mut value: u32 = 0;
    for i in 0..4 {
        let b = u32::from(*s.get(at + i)?);
        value = value * 128 + b % 128;
        if b < 128 {
            let next = at + i + 1;
            return Some(Number { value, next });
        }
    }
    None
}

// The byte at an offset, in the event whose delta time stands at `start`: the offset that a refusal has.
fn byte_at(s: &[u8], start: usize, at: usize) -> Result<u32, Refusal>
    ensures { result ≡ byte start s.now at }
{
    let b = *s.get(at).ok_or(Refusal::MidiFile(start))?;
    Ok(u32::from(b))
}

// A data byte, or the type of a meta event: at most 127.
fn low_byte_at(s: &[u8], start: usize, at: usize) -> Result<u32, Refusal>
    ensures { result ≡ low_byte start s.now at }
{
    let b = byte_at(s, start, at)?;
    if 128 <= b {
        return Err(Refusal::MidiFile(start));
    }
    Ok(b)
}

// Program change and channel pressure.
fn has_one_data_byte(status: u32) -> bool
    ensures { result ≡ one_data_byte status }
{
    status / 16 == 12 || status / 16 == 13
}

// A note-on with velocity above 0.
fn is_a_hit(status: u32, velocity: u32) -> bool
    ensures { result ≡ is_hit status velocity }
{
    status / 16 == 9 && 0 < velocity
}

fn is_exclusive(status: u32) -> bool
    ensures { result ≡ exclusive status }
{
    status == 0xF0 || status == 0xF7
}

// A channel message from its data bytes on: one of them for program change and channel pressure, else two.
fn read_message(s: &[u8], start: usize, status: u32, at: usize, tick: u64) -> Result<Step, Refusal>
    ensures { result ≡ message start s.now status at tick }
{
    let first = low_byte_at(s, start, at)?;
    if has_one_data_byte(status) {
        return Ok(Step::Silent(Reader {
            at: at + 1,
            running: status,
            tick,
        }));
    }
    let second = low_byte_at(s, start, at + 1)?;
    let next = Reader {
        at: at + 2,
        running: status,
        tick,
    };
    if is_a_hit(status, second) {
        let hit = Hit {
            tick,
            note: first,
            velocity: second,
        };
        return Ok(Step::Sounds(hit, next));
    }
    Ok(Step::Silent(next))
}

// An event that is skipped by its length, which stands at `at`.
fn skip(s: &[u8], start: usize, at: usize, tick: u64) -> Result<Step, Refusal>
    ensures { result ≡ skipped start s.now at tick }
{
    let n = number_at(s, at).ok_or(Refusal::MidiFile(start))?;
    let size = n.value as usize;
    if s.len() - n.next < size {
        return Err(Refusal::MidiFile(start));
    }
    Ok(Step::Silent(Reader {
        at: n.next + size,
        running: 0,
        tick,
    }))
}

// A meta event from its type on.
fn read_meta(s: &[u8], start: usize, at: usize, tick: u64) -> Result<Step, Refusal>
    ensures { result ≡ meta start s.now at tick }
{
    let kind = low_byte_at(s, start, at)?;
    if kind == 0x2F {
        if byte_at(s, start, at + 1)? != 0 {
            return Err(Refusal::MidiFile(start));
        }
        return Ok(Step::Ends(at + 2));
    }
    skip(s, start, at + 1, tick)
}

impl Reader {
    // The event here; no event is refused with this place.
    pub fn step(self, s: &[u8]) -> Result<Step, Refusal>
        requires { Within s.now self }
        ensures { result ≡ read_event s.now self }
    {
        let start = self.at;
        let delta = number_at(s, start).ok_or(Refusal::MidiFile(start))?;
        let at = delta.next;
        let tick = self.tick + u64::from(delta.value);
        let b = byte_at(s, start, at)?;
        if b < 0x80 {
            if self.running == 0 {
                return Err(Refusal::MidiFile(start));
            }
            return read_message(s, start, self.running, at, tick);
        }
        if b < 0xF0 {
            return read_message(s, start, b, at + 1, tick);
        }
        if b == 0xFF {
            return read_meta(s, start, at + 1, tick);
        }
        if is_exclusive(b) {
            return skip(s, start, at + 1, tick);
        }
        Err(Refusal::MidiFile(start))
    }
}
