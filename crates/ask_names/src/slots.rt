// The names of a question resolved once: which different terms they name, and how often each. A name is resolved to its directory entry;
// two names are the same exactly when their entries are, so no name is compared with another. A name without an entry makes the answer
// empty, but only after every other name's list was decoded: a malformed list is refused whatever names are beside it.
ghost use Rattle.std.specs.Prelude.{◌≡◌, ◌≤◌};
ghost use Rattle.ask_names.specs.Steps.{no_slots, slot_for, with_found, Room};

use read_terms::find::TermList;

// The different terms that a question's names name. `taken` names were taken; they name `different` terms. The name with index i names
// term slot[i]; term k's list is list[k], and it is named wanted[k] times. `absent`: some name has no term.
#[derive(Clone, Copy)]
pub struct Names {
    pub taken: usize,
    pub different: usize,
    pub absent: bool,
    pub slot: [usize; 128],
    pub list: [TermList; 128],
    pub wanted: [u32; 128],
}

impl Names {
    // No name was taken yet.
    pub fn new() -> Names
        ensures { result ≡ no_slots }
    {
        let none = TermList {
            entry: 0,
            start: 0,
            end: 0,
            df: 0,
            checksum: 0,
        };
        Names {
            taken: 0,
            different: 0,
            absent: false,
            slot: [0; 128],
            list: [none; 128],
            wanted: [0; 128],
        }
    }

    // The number of the term with this entry, or the number of terms where none has it.
    fn slot_of(&self, entry: usize) -> usize
        requires { self.now.different ≤ 128 }
        ensures { result ≡ slot_for self.now.different self.now.list entry }
    {
        self.list[..self.different]
            .iter()
            .position(|list| list.entry == entry)
            .unwrap_or(self.different)
    }

    // Adds a name, by the term that was found for it.
    pub fn take(&mut self, found: Option<TermList>)
        requires { Room self.old }
        ensures { self.new ≡ with_found self.old found }
    {
        match found {
            Some(list) => {
                let k = self.slot_of(list.entry);
                self.slot[self.taken] = k;
                self.wanted[k] += 1;
                if k == self.different {
                    self.list[k] = list;
                    self.different += 1;
                }
            }
            None => {
                self.absent = true;
            }
        }
        self.taken += 1;
    }
}
