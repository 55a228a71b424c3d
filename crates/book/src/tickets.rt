// Writing under a ticket: a cue without entries is given one, its steps are recorded under it, and its ending uses it up.
ghost use Rattle.std.specs.Prelude.{◌≡◌};
ghost use Rattle.history.specs.Endings.{act_of};
ghost use Rattle.book.specs.Entering.{room, accepted, entered, grown, Lays};
ghost use Rattle.book.specs.Tickets.{begun, stepped, under, closed};

use crate::Book;
use history::{Act, Ending, Entry, has_acted, is_cue};
use refusals::Refusal;

// The right to write for one cue. It is moved and never copied, so that it is gone once it was used to end its cue.
#[derive(Drop)]
pub struct Ticket {
    cue: u32,
}

impl Ticket {
    // The cue that it is for.
    pub fn cue(&self) -> u32
        ensures { result ≡ self.now.cue }
    {
        self.cue
    }

    // The entry of an act under it.
    fn entry_of<K>(&self, act: Act<K>) -> Entry<K>
        ensures { result ≡ under self.now act }
    {
        Entry { cue: self.cue, act }
    }
}

// What is given for a ticket that ended its cue: the place of the ending, and which it was.
#[derive(Drop)]
pub struct Receipt {
    pub place: usize,
    pub ending: Ending,
}

// What a cue may do before it ends.
#[derive(Clone, Copy)]
pub enum Step<K> {
    Read(K),
    Write(K),
}

// The act that a step is.
impl<K> From<Step<K>> for Act<K> {
    ghost from_gives = { λ f r. r ≡ stepped f };

    fn from(step: Step<K>) -> Act<K> {
        match step {
            Step::Read(item) => Act::Read(item),
            Step::Write(item) => Act::Write(item),
        }
    }
}

impl<'a, K: Copy> Book<'a, K> {
    // A ticket for a cue that has no entry. Nothing is written, so another is given until the cue has one.
    pub fn begin(&self, cue: u32) -> Result<Ticket, Refusal>
        ensures { result ≡ begun (accepted self.now) cue }
    {
        if !is_cue(cue) {
            return Err(Refusal::NoSuchCue);
        }
        if has_acted(self.entries(), cue) {
            return Err(Refusal::CueEntered);
        }
        Ok(Ticket { cue })
    }

    // Enters a step of the ticket's cue.
    pub fn record(&mut self, ticket: &Ticket, step: Step<K>) -> Result<usize, Refusal>
        ensures answer { result ≡ entered (room self.old) (accepted self.old) ticket.now.cue }
        ensures grows { accepted self.new ≡ grown result (under ticket.now (stepped step)) (accepted self.old) }
        ensures lays { Lays self.old self.new }
    {
        self.enter(ticket.entry_of(Act::from(step)))
    }

    // Ends the ticket's cue and gives a receipt for the ticket, or gives the ticket back with the refusal. By a match, since a
    // `map` would move the ticket into its closure.
    pub fn end(&mut self, ticket: Ticket, ending: Ending) -> Result<Receipt, (Ticket, Refusal)>
        ensures answer { result ≡ closed ticket ending (entered (room self.old) (accepted self.old) ticket.cue) }
        ensures grows { accepted self.new ≡ grown result (under ticket (act_of ending)) (accepted self.old) }
        ensures lays { Lays self.old self.new }
    {
        match self.enter(ticket.entry_of(Act::from(ending))) {
            Ok(place) => Ok(Receipt { place, ending }),
            Err(refusal) => Err((ticket, refusal)),
        }
    }
}
