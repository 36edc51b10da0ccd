// What may be asked, as a value.

// A phrase, or terms near one another within a window, in the order named or in any.
#[derive(Clone, Copy)]
pub enum Rule {
    Phrase,
    Ordered(u32),
    Unordered(u32),
}
