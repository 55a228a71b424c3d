// The tickets that a run has given, by number.
ghost use Rattle.std.specs.Prelude.{◌≡◌, ◌+◌, ◌<◌, ◌≤◌, ◌∷◌, [], ◌++◌, length, option_copied};
ghost use Rattle.runs.specs.Runs.{is_given, ticket_at};

use book::Ticket;

// The tickets given so far, in the first cells of what is lent for them. The first has the number 1, and the cell of one that is
// used up holds none.
#[derive(Drop)]
pub struct Held<'a> {
    cells: &'a mut [Option<Ticket>],
    given: usize,
    ghost within: { given ≤ length cells.now },
}

impl<'a> Held<'a> {
    ghost use Rattle.runs.specs.Holding.{tickets_of, set_ticket, Keeps};

    // None is given yet, and the cells stay as they are.
    pub fn new(cells: &'a mut [Option<Ticket>]) -> Held<'a>
        ensures none { result.given ≡ 0 }
        ensures cells { result.cells.now ≡ cells.old }
        ensures lender { result.cells.ghost_name ≡ cells.entry.ghost_name }
    {
        Held { cells, given: 0 }
    }

    // Keeps a ticket and answers its number.
    #[tactic(auto, using(crate::proofs::Holding::keeps_set))]
    pub fn give(&mut self, ticket: Ticket) -> usize
        requires { self.old.given < length self.old.cells.now }
        ensures number { result ≡ self.old.given + 1 }
        ensures tickets { tickets_of self.new ≡ tickets_of self.old ++ Some ticket ∷ [] }
        ensures keeps { Keeps self.old self.new }
    {
        self.cells[self.given] = Some(ticket);
        self.given += 1;
        self.given
    }

    // Whether a ticket with that number was given.
    fn is_given(&self, number: usize) -> bool
        ensures { result ≡ is_given self.now.given number }
    {
        (1..=self.given).contains(&number)
    }

    // The ticket with that number, if it is held and not used up.
    pub fn ticket(&self, number: usize) -> Option<&Ticket>
        ensures { option_copied result ≡ ticket_at (tickets_of self.now) number }
    {
        if !self.is_given(number) {
            return None;
        }
        let cells = &*self.cells;
        cells[number - 1].as_ref()
    }

    // Takes it out of its cell.
    #[tactic(auto, using(crate::proofs::Holding::keeps_set, crate::proofs::Holding::cell_given, crate::proofs::Holding::set_given))]
    pub fn take(&mut self, number: usize) -> Option<Ticket>
        ensures ticket { result ≡ ticket_at (tickets_of self.old) number }
        ensures tickets { tickets_of self.new ≡ set_ticket (tickets_of self.old) number None }
        ensures keeps { Keeps self.old self.new }
    {
        if !self.is_given(number) {
            return None;
        }
        let cells = &mut *self.cells;
        cells[number - 1].take()
    }

    // Puts it back.
    #[tactic(auto, using(crate::proofs::Holding::keeps_set, crate::proofs::Holding::cell_given, crate::proofs::Holding::set_given))]
    pub fn put_back(&mut self, number: usize, ticket: Ticket)
        ensures tickets { tickets_of self.new ≡ set_ticket (tickets_of self.old) number (Some ticket) }
        ensures keeps { Keeps self.old self.new }
    {
        if self.is_given(number) {
            self.cells[number - 1] = Some(ticket);
        }
    }
}
