// Why a call refuses, in the order of documents 01 and 02: kinds from `MidiFile` on are document 02's. A caller in C is told three numbers,
// kind, which and index; what the source's Error does not carry is 0. specs/Refusals.antt has every number.
ghost use Rattle.std.specs.Prelude.{◌≡◌};
ghost use Rattle.segment.specs.Refusals.{section_number, reason_number, numbers};

// The largest number of elements of a list or text handed in.
pub const LIMIT: usize = 16777216;

// A part of the segment.
#[derive(Clone, Copy, PartialEq, Eq, Debug)]
pub enum Section {
    Header,
    TermDirectory,
    TermBytes,
    DocumentMetadata,
    Postings,
    TermPostings,
}

// What is wrong with a layout: up to `TrailingPostingBytes` in what is read, from there on in what is handed to the writer.
#[derive(Clone, Copy, PartialEq, Eq, Debug)]
pub enum Reason {
    TrailingBytes,
    SectionRangeOverflow,
    TrailingDocumentMetadata,
    NonIncreasingDocumentId,
    DirectoryLengthMismatch,
    EmptyTerm,
    NonIncreasingTerm,
    EmptyTermPostingList,
    NonIncreasingPostingId,
    UnknownDocument,
    EmptyPositionList,
    NonIncreasingPosition,
    PositionExceedsLength,
    TrailingPostingBytes,
    DocumentLengthsNotIncreasing,
    TermsNotIncreasing,
    PostingIdGapUnderflow,
    PostingIdsNotIncreasing,
    PositionGapUnderflow,
    PositionsNotIncreasing,
    WrittenPositionExceedsLength,
}

#[derive(Clone, Copy, PartialEq, Eq, Debug)]
pub enum Refusal {
    // The bytes end inside a section.
    Truncated(Section),
    InvalidMagic,
    // The version found.
    UnsupportedVersion(u32),
    // The flags found.
    UnsupportedFlags(u32),
    ChecksumMismatch(Section),
    InvalidLayout(Reason),
    // No number that document 01 stores, in the element with an index.
    InvalidVarint(Section, u64),
    DocIdOverflow(u64),
    PositionOverflow(u64),
    InvalidUtf8,
    // Lists that do not belong together.
    ListShape,
    TooLarge,
    // The lent buffer, counted from 1, and the length needed.
    NoRoom(u32, usize),
    // A MIDI file outside document 02's rules: 0 for the header, 14 for the track's heading, else an offset.
    MidiFile(usize),
    // A hit beyond bar 65,535.
    BarTooFar,
    // No bar has the id asked for.
    UnknownBar,
    // A bar of more than 64 steps.
    BarTooLong,
    // The pad holds a bar with the id already.
    AlreadyHeld,
    // The pad holds 256 bars, or its hits would pass 8,192.
    PadFull,
    // The words are no pad.
    BrokenPad,
    // The place from 0 of the first id that is not above the one before it.
    IdsNotRising(usize),
    // A velocity outside 1 to 127.
    VelocityRange,
}

// The three numbers of a refusal.
#[derive(Clone, Copy, PartialEq, Eq, Debug)]
pub struct Numbers {
    pub kind: u32,
    pub which: u32,
    pub index: u64,
}

impl Section {
    // The section's number, from 1.
    pub fn number(self) -> u32
        ensures { result ≡ section_number self }
    {
        self as u32 + 1
    }
}

impl Reason {
    // The reason's number, from 1.
    pub fn number(self) -> u32
        ensures { result ≡ reason_number self }
    {
        self as u32 + 1
    }
}

impl Refusal {
    // Kind, which and index.
    pub fn numbers(self) -> Numbers
        ensures { result ≡ numbers self }
    {
        let (kind, which, index) = match self {
            Refusal::Truncated(section) => (1, section.number(), 0),
            Refusal::InvalidMagic => (2, 0, 0),
            Refusal::UnsupportedVersion(value) => (3, 0, value as u64),
            Refusal::UnsupportedFlags(value) => (4, 0, value as u64),
            Refusal::ChecksumMismatch(section) => (5, section.number(), 0),
            Refusal::InvalidLayout(reason) => (6, reason.number(), 0),
            Refusal::InvalidVarint(section, index) => (7, section.number(), index),
            Refusal::DocIdOverflow(index) => (8, 0, index),
            Refusal::PositionOverflow(index) => (9, 0, index),
            Refusal::InvalidUtf8 => (10, 0, 0),
            Refusal::ListShape => (11, 0, 0),
            Refusal::TooLarge => (12, 0, 0),
            Refusal::NoRoom(buffer, needed) => (13, buffer, needed as u64),
            Refusal::MidiFile(offset) => (14, 0, offset as u64),
            Refusal::BarTooFar => (15, 0, 0),
            Refusal::UnknownBar => (16, 0, 0),
            Refusal::BarTooLong => (17, 0, 0),
            Refusal::AlreadyHeld => (18, 0, 0),
            Refusal::PadFull => (19, 0, 0),
            Refusal::BrokenPad => (20, 0, 0),
            Refusal::IdsNotRising(place) => (21, 0, place as u64),
            Refusal::VelocityRange => (22, 0, 0),
        };
        Numbers { kind, which, index }
    }
}
