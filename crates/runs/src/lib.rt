// Runs: any list of calls on a new book, with all their answers.
#![tactic(auto)]

ghost use Rattle.std.specs.Prelude.{◌≡◌, ◌<◌, min, length};
ghost use Rattle.book.specs.Entering.{room, accepted, Lays};
ghost use Rattle.runs.specs.declared.Failure.TheVariants.{Refused, Fault};
ghost use Rattle.runs.specs.Answers.{IsOrderAnswer, IsViewsAnswer, LentPast64};
ghost use Rattle.runs.specs.Holding.{so_far, Keeps};
ghost use Rattle.runs.specs.Laws.{StateIsAsAnswered, TicketsAreNumbered, RightIsTold, WantIsTold};
ghost use Rattle.runs.specs.Laws.{QuestionsAreTold, AllRightIsTold, RunsGoOn};
ghost use Rattle.runs.specs.Laws.{RunsMakeBooks, OrdersAgree, ViewsAgree};
ghost use Rattle.runs.specs.Runs.{Right, after, wanted, Ran};

mod cues;
mod held;

use book::{Book, ReadFault, Step, Ticket};
pub use cues::Cues;
use graphs::Found;
use held::Held;
use history::{Ending, Entry};
use items::Item;
use recovery::Class;
use refusals::Refusal;
use serial::Pair;
use std::fmt;

// One call on a book. A ticket goes by its number: the first that is given is 1.
#[derive(Drop)]
pub enum Call<'a, K> {
    Enter(Entry<K>),
    ReadIn(&'a [u8]),
    // A ticket for this cue.
    Begin(u32),
    // Through the ticket with this number.
    Record(usize, Step<K>),
    // Ends the cue of the ticket with this number.
    End(usize, Ending),
    Class,
    // With a list of so many cells and a strip of so many bytes; of each, more than 64 are as good
    // as 64.
    Order(usize, usize),
    // With a list of so many cells; more than 64 are as good as 64.
    Views(usize),
    // Which entries put the first cue before the second.
    Why(u32, u32),
}

// The answer to a call.
#[derive(Clone, Copy)]
pub enum Answer {
    // The place of the entry that was accepted.
    Place(usize),
    // How many lines were read in.
    Lines(usize),
    // The number of the ticket that was given.
    Ticket(usize),
    // The place of the ending, and which it is.
    Receipt(usize, Ending),
    Class(Class),
    Order(Cues),
    Cycle(Cues),
    // The first view-equivalent order, if there is one.
    Views(Option<Cues>),
    Why(Option<Pair>),
}

// Why a call has no answer.
#[derive(Clone, Copy)]
pub enum Failure {
    Refused(Refusal),
    Fault(ReadFault),
    // No ticket with that number is held.
    NoTicket,
}

impl From<Refusal> for Failure {
    ghost from_gives = { λ f r. r ≡ Refused f };

    fn from(refusal: Refusal) -> Failure {
        Failure::Refused(refusal)
    }
}

impl From<ReadFault> for Failure {
    ghost from_gives = { λ f r. r ≡ Fault f };

    fn from(fault: ReadFault) -> Failure {
        Failure::Fault(fault)
    }
}

// What a run wants more of than it was lent.
#[derive(Clone, Copy)]
pub enum Want {
    // A cell for the answer to each call.
    Answers,
    // A cell for a ticket for each call.
    Tickets,
}

impl fmt::Display for Want {
    ghost use Rattle.std.specs.Prelude.{Some};
    ghost use Rattle.runs.specs.Wants.{want_words};

    ghost output = { λ w. Some (want_words w) };

    fn fmt<W: fmt::Write>(&self, f: &mut fmt::Formatter<W>) -> fmt::Result {
        f.write_str(match self {
            Want::Answers => "nothing is performed: there is not a cell for each answer",
            Want::Tickets => {
                "nothing is performed: there is not a cell for a ticket for each call"
            }
        })
    }
}

// Shows the order, or the cycle, with a list of so many cells and a strip of so many bytes.
fn order<K: Item>(book: &Book<'_, K>, cells: usize, bytes: usize) -> Result<Answer, Failure>
    ensures { IsOrderAnswer K.Item.alike (accepted book.now) cells bytes result }
{
    let mut list = [0u32; 64];
    let mut strip = [0u8; 64];
    let found = book.order(&mut list[..cells.min(64)], &mut strip[..bytes.min(64)])?;
    Ok(match found {
        Found::Order(count) => Answer::Order(Cues { list, count }),
        Found::Cycle(count) => Answer::Cycle(Cues { list, count }),
    })
}

// Shows the view-equivalent order, with a list of so many cells. By a match, since the closure of a
// `map` would not know how many cells an order has.
fn views<K: Item>(book: &Book<'_, K>, cells: usize) -> Result<Answer, Failure>
    ensures { IsViewsAnswer K.Item.alike (accepted book.now) cells result }
{
    let mut list = [0u32; 64];
    let found = book.views(&mut list[..cells.min(64)])?;
    Ok(Answer::Views(match found {
        Some(count) => Some(Cues { list, count }),
        None => None,
    }))
}

// Performs one call.
#[tactic(auto, using(crate::proofs::Doing::read_front))]
fn perform_one<K: Item>(
    book: &mut Book<'_, K>,
    tickets: &mut Held<'_>,
    call: &Call<'_, K>,
) -> Result<Answer, Failure>
    requires { tickets.old.given < length tickets.old.cells.now }
    ensures right { let before = so_far book.old tickets.old in
        Right K.Item.alike K.Item.parsed (room book.old) before call.now result }
    ensures after { let before = so_far book.old tickets.old in
        so_far book.new tickets.new ≡ after K.Item.parsed (room book.old) before call.now }
    ensures lays { Lays book.old book.new }
    ensures keeps { Keeps tickets.old tickets.new }
{
    match call {
        Call::Enter(entry) => Ok(Answer::Place(book.enter(*entry)?)),
        Call::ReadIn(sheet) => Ok(Answer::Lines(book.read_in(*sheet)?)),
        Call::Begin(cue) => Ok(Answer::Ticket(tickets.give(book.begin(*cue)?))),
        Call::Record(number, step) => {
            let ticket = tickets.ticket(*number).ok_or(Failure::NoTicket)?;
            Ok(Answer::Place(book.record(ticket, *step)?))
        }
        Call::End(number, ending) => {
            let ticket = tickets.take(*number).ok_or(Failure::NoTicket)?;
            match book.end(ticket, *ending) {
                Ok(receipt) => Ok(Answer::Receipt(receipt.place, receipt.ending)),
                Err((ticket, refusal)) => {
                    tickets.put_back(*number, ticket);
                    Err(Failure::Refused(refusal))
                }
            }
        }
        Call::Class => Ok(Answer::Class(book.class())),
        Call::Order(cells, bytes) => order(book, *cells, *bytes),
        Call::Views(cells) => views(book, *cells),
        Call::Why(i, j) => Ok(Answer::Why(book.why(*i, *j)?)),
    }
}

// Lays a new book out in the memory, of which it uses at most 4,096 places, and performs the
// calls in turn; the answers stand in the first cells of `answers`. A cell of `answers` and one
// of `tickets` is wanted for each call: where there are fewer, it says which, and nothing is
// performed or written.
pub fn perform<K: Item>(
    memory: &mut [Entry<K>],
    calls: &[Call<'_, K>],
    answers: &mut [Result<Answer, Failure>],
    tickets: &mut [Option<Ticket>],
) -> Result<(), Want>
    ensures wants { result ≡ wanted (length calls.now) (length answers.old) (length tickets.old) }
    ensures runs { let places = min (length memory.old) 4096 in
        Ran K.Item.alike K.Item.parsed places calls.now answers.old answers.new
        tickets.old tickets.new memory.old memory.new result }
{
    if answers.len() < calls.len() {
        return Err(Want::Answers);
    }
    if tickets.len() < calls.len() {
        return Err(Want::Tickets);
    }
    let mut book = Book::new(memory);
    let mut held = Held::new(tickets);
    // By index: of cells that are written through an `iter_mut` beside the calls a proof knows nothing afterwards.
    for (k, call) in calls.iter().enumerate() {
        answers[k] = perform_one(&mut book, &mut held, call);
    }
    Ok(())
}

// That a list of more than 64 cells, or a strip of more than 64 bytes, makes no difference.
pub fn lent_past_64<K>()
    ensures { LentPast64 K }
{}

// That after a call the state is what its answer says: an entry stands at the place that is
// answered, a ticket is held by its number and, once it ended its cue, by none, and a refusal or a
// question changes nothing. That a call is answered as its cue and its ticket want it, a sheet as
// its lines do, and a question as the entries and what is lent do, about the state that the calls
// before it left. That in no run an entry is of a cue that had ended, or of none, or stands past
// the places. That two right answers about orders agree but in the cycle.
pub fn runs_are_told<K>()
    ensures answered { StateIsAsAnswered K }
    ensures tickets { TicketsAreNumbered }
    ensures right { RightIsTold K }
    ensures questions { QuestionsAreTold K }
    ensures turns { AllRightIsTold K }
    ensures wants { WantIsTold }
    ensures goes { RunsGoOn K }
    ensures books { RunsMakeBooks K }
    ensures orders { OrdersAgree K }
    ensures views { ViewsAgree K }
{}
