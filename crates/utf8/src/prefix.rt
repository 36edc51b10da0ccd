// The first characters of a text, so that it is cut between two of them and never inside one.
ghost use Rattle.utf8.specs.Promise.{IsPrefix};

use crate::characters::char_len;

#[derive(Clone, Copy)]
pub struct Prefix {
    pub characters: usize,
    pub octets: usize,
}

// The first `most` characters, or all where there are fewer: how many they are, and how many octets they have.
pub fn first_characters(s: &[u8], most: usize) -> Prefix
    ensures { IsPrefix s.now most result }
{
    let mut octets: usize = 0;
    for characters in 0..most {
        let k = char_len(s, octets);
        if k == 0 {
            return Prefix { characters, octets };
        }
        octets += k;
    }
    Prefix {
        characters: most,
        octets,
    }
}
