// The flat lists taken term by term: where the next term's name, postings and positions start.
ghost use Rattle.std.specs.Prelude.{◌≡◌};
ghost use Rattle.write_check_all.specs.Steps.{ShapedFrom, next_of};

use common::widths::long;
use write_checks::shape::total_of;

// The next term's index, and where its part of each flat list starts.
#[derive(Clone, Copy)]
pub struct Walk {
    pub term: usize,
    pub name: usize,
    pub posting: usize,
    pub position: usize,
}

impl Walk {
    // At the first term.
    pub fn start() -> Walk
        ensures { result ≡ record { term = 0; name = 0; posting = 0; position = 0 } }
    {
        Walk {
            term: 0,
            name: 0,
            posting: 0,
            position: 0,
        }
    }

    // Past the next term.
    pub fn next(self, ends: &[u32], posting_counts: &[u32], position_counts: &[u32]) -> Walk
        requires { ShapedFrom self ends.now posting_counts.now position_counts.now }
        ensures { result ≡ next_of self ends.now posting_counts.now position_counts.now }
    {
        let last = self.posting + long(posting_counts[self.term]);
        let past = total_of(&position_counts[self.posting..last]);
        Walk {
            term: self.term + 1,
            name: long(ends[self.term]),
            posting: last,
            position: self.position + past as usize,
        }
    }
}
