// The book: entries in the caller's memory, in the order in which they were accepted.
#![tactic(auto)]

ghost use Rattle.std.specs.Prelude.{◌≡◌, ◌≤◌, [], length};

mod laws;
mod questions;
mod sheets;
mod tickets;

use history::{Entry, has_ended, is_cue};
pub use laws::{entering_is_told, tickets_are_told};
use refusals::Refusal;
pub use sheets::{ReadFault, reads_in_stands, sheets_are_told};
pub use tickets::{Receipt, Step, Ticket};

// How many places a book uses at most.
const PLACES: usize = 4096;

// A book over the caller's memory, of which it uses the first 4,096 places, or all where there are fewer. Contracts see its fields,
// and not one value in their place, since the memory past the entries is the lender's to know. A length stands beside the memory, since there is no
// heap and the memory is the caller's.
#[derive(Drop)]
pub struct Book<'a, K> {
    memory: &'a mut [Entry<K>],
    len: usize,
    ghost within: { len ≤ length memory.now },
    ghost few: { len ≤ 4096 },
}

impl<'a, K: Copy> Book<'a, K> {
    ghost use Rattle.book.specs.Entering.{room, accepted, entered, grown, Lays};

    // A new book has no entry, and leaves its memory as it is.
    pub fn new(memory: &'a mut [Entry<K>]) -> Book<'a, K>
        ensures empty { accepted result ≡ [] }
        ensures memory { result.memory.now ≡ memory.old }
        ensures count { result.len ≡ 0 }
        ensures lender { result.memory.ghost_name ≡ memory.entry.ghost_name }
    {
        Book { memory, len: 0 }
    }

    // The accepted entries, in their order.
    pub fn entries(&self) -> &[Entry<K>]
        ensures { result.now ≡ accepted self.now }
    {
        &self.memory[..self.len]
    }

    // The place that an entry of the cue gets, or the first refusal that is met.
    fn place_for(&self, cue: u32) -> Result<usize, Refusal>
        ensures { result ≡ entered (room self.now) (accepted self.now) cue }
    {
        if !is_cue(cue) {
            return Err(Refusal::NoSuchCue);
        }
        if has_ended(self.entries(), cue) {
            return Err(Refusal::CueEnded);
        }
        if self.len >= self.memory.len().min(PLACES) {
            return Err(Refusal::BookFull);
        }
        Ok(self.len + 1)
    }

    // Accepts an entry and answers its place, from 1, or refuses it (11, 12, 13) and writes
    // nothing.
    pub fn enter(&mut self, entry: Entry<K>) -> Result<usize, Refusal>
        ensures answer { result ≡ entered (room self.old) (accepted self.old) entry.cue }
        ensures grows { accepted self.new ≡ grown result entry (accepted self.old) }
        ensures lays { Lays self.old self.new }
    {
        let place = self.place_for(entry.cue)?;
        self.memory[place - 1] = entry;
        self.len = place;
        Ok(place)
    }
}
