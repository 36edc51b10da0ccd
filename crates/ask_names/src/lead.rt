// The rarest list leads: the walk over the documents goes from list 0, so the term with the fewest postings gets number 0. Every order of
// the lists finds the same documents.
ghost use Rattle.std.specs.Prelude.{◌≡◌, ◌≤◌, ◌<◌, length};
ghost use Rattle.ask_names.specs.Lists.{swap, Renamed, Led};

use crate::slots::Names;
use read_terms::find::TermList;

// The number of a list that no other has fewer postings than.
fn rarest(lists: &[TermList]) -> usize
    requires { 0 < length lists.now }
    ensures { result < length lists.now }
{
    let mut least: usize = 0;
    for k in 1..lists.len() {
        if lists[k].df < lists[least].df {
            least = k;
        }
    }
    least
}

// The number of term k after terms 0 and b changed numbers.
fn swapped(b: usize, k: usize) -> usize
    ensures { result ≡ swap b k }
{
    if k == 0 {
        return b;
    }
    if k == b {
        return 0;
    }
    k
}

impl Names {
    // The rarest list gets number 0, and the list that had it gets its number, which is returned.
    pub fn lead_with_rarest(&mut self) -> usize
        requires { (self.old.taken ≤ 128) × (0 < self.old.different) × (self.old.different ≤ 128) }
        ensures { (led : Led self.old self.new) × (result ≡ led.b) }
    {
        let b = rarest(&self.list[..self.different]);
        for slot in self.slot[..self.taken].iter_mut() {
            *slot = swapped(b, *slot);
        }
        self.list.swap(0, b);
        self.wanted.swap(0, b);
        b
    }
}
