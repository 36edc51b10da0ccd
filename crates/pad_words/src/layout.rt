// Word 0 is the number of bars, word 1 the number of their hits. Then the bars by rising id, each id, length, number of hits and the hits;
// a hit is two words, sound + 256 * velocity, step. What lies behind the last bar is free and may be anything.
pub const BARS: usize = 256;

pub const HITS: usize = 8192;

// Sounds are 0 to 127.
pub const SOUNDS: usize = 128;

// A hit's first word is its sound and so many times its velocity.
pub const VELOCITY_UNIT: u32 = 256;

// 2 words, 3 for each bar, 2 for each hit.
pub const WORDS: usize = 17154;
