// What the calls of documents 01 and 02 answer where they accept; each answers a `Result` with a `Refusal`. A call that fills lent buffers
// answers how many elements it stored, one that looks up a number answers it, or none.

// How many documents and terms an open segment has (`open`).
#[derive(Clone, Copy)]
pub struct Counts {
    pub documents: u32,
    pub terms: u32,
}

// How many postings and how many positions a term has (`term_postings`).
#[derive(Clone, Copy)]
pub struct Totals {
    pub postings: usize,
    pub positions: usize,
}

// How many documents, terms, postings and positions a MIDI file has (`midi_bars`).
#[derive(Clone, Copy)]
pub struct ListTotals {
    pub documents: usize,
    pub terms: usize,
    pub postings: usize,
    pub positions: usize,
}

// How many hits a held bar has, and its length (`pad_read`).
#[derive(Clone, Copy)]
pub struct BarRead {
    pub hits: usize,
    pub len: u32,
}
