// A kind of item made here, outside the library, of which every two items are the same. Runs over it, with their answers.
#![tactic(auto)]

ghost use Rattle.std.specs.Prelude.{true, Some};
ghost use Rattle.one_item.specs.Texts.{star};
ghost use Rattle.std.proofs.Common.{rules};

use book::{Step, Ticket};
use history::{Act, Ending, Entry};
use items::Item;
use runs::{Answer, Call, Cues, Failure, perform};
use std::{array, fmt, io};
use words::Spaced;

// Items that differ in their number and are the same for a book.
#[derive(Clone, Copy)]
struct Anything {
    number: u32,
}

impl Item for Anything {
    ghost alike = { λ a b. true };

    ghost text = { λ a. star };

    ghost parsed = { λ field. Some (record { number = 0 }) };

    ghost reflexive = { Prim.search rules };

    ghost symmetric = { Prim.search rules };

    ghost transitive = { Prim.search rules };

    ghost eight = { Prim.search rules };

    ghost back = { Prim.search rules };

    fn same(self, _other: Anything) -> bool {
        true
    }

    fn read(_field: &[u8; 8]) -> Option<Anything> {
        Some(Anything { number: 0 })
    }

    fn write(self, field: &mut [u8; 8]) {
        *field = *b"       *";
    }
}

// How many calls a run has here at most.
const CALLS: usize = 12;

// The second cue reads what the first wrote, though by another number. The last two are refused.
const ONE_WAY: [Call<'static, Anything>; 9] = [
    Call::Enter(Entry {
        cue: 1,
        act: Act::Write(Anything { number: 1 }),
    }),
    Call::ReadIn(b"   2 r whatever\n   1 c         \n   2 c         \n"),
    Call::Class,
    Call::Order(64, 64),
    Call::Why(1, 2),
    Call::Why(2, 1),
    Call::Views(64),
    Call::Why(2, 2),
    Call::ReadIn(b"   2 r"),
];

// Two cues write different numbers, and the first then reads: each comes before the other.
const BOTH_WAYS: [Call<'static, Anything>; 11] = [
    Call::Begin(1),
    Call::Begin(2),
    Call::Record(1, Step::Write(Anything { number: 1 })),
    Call::Record(2, Step::Write(Anything { number: 2 })),
    Call::Record(1, Step::Read(Anything { number: 3 })),
    Call::End(2, Ending::Commit),
    Call::End(1, Ending::Commit),
    Call::End(1, Ending::Commit),
    Call::Class,
    Call::Order(64, 64),
    Call::Views(64),
];

// An answer as it is printed.
#[derive(Clone, Copy)]
struct Shown<'a>(&'a Result<Answer, Failure>);

// Cues after a word for what they are.
#[derive(Clone, Copy)]
struct Row<'a>(&'a str, &'a Cues);

impl fmt::Display for Row<'_> {
    fn fmt<W: fmt::Write>(&self, f: &mut fmt::Formatter<W>) -> fmt::Result {
        write!(f, "{}{}", self.0, Spaced(self.1.as_slice()))
    }
}

impl fmt::Display for Shown<'_> {
    fn fmt<W: fmt::Write>(&self, f: &mut fmt::Formatter<W>) -> fmt::Result {
        match self.0 {
            Ok(Answer::Place(place)) => write!(f, "place {place}"),
            Ok(Answer::Lines(lines)) => write!(f, "lines {lines}"),
            Ok(Answer::Ticket(number)) => write!(f, "ticket {number}"),
            Ok(Answer::Receipt(place, _)) => write!(f, "receipt {place}"),
            Ok(Answer::Class(class)) => write!(f, "class {} {}", class.number(), class.place()),
            Ok(Answer::Order(cues)) => Row("order", cues).fmt(f),
            Ok(Answer::Cycle(cues)) => Row("cycle", cues).fmt(f),
            Ok(Answer::Views(Some(cues))) => Row("views", cues).fmt(f),
            Ok(Answer::Views(None)) => f.write_str("no views"),
            Ok(Answer::Why(Some(pair))) => write!(f, "why {} {}", pair.first, pair.second),
            Ok(Answer::Why(None)) => f.write_str("no why"),
            Err(Failure::Refused(refusal)) => write!(f, "refused {}", refusal.number()),
            Err(Failure::Fault(_)) => f.write_str("a line was not read"),
            Err(Failure::NoTicket) => f.write_str("no ticket"),
        }
    }
}

fn run(rt: &HostRuntime, calls: &[Call<'_, Anything>]) -> io::Result<()> {
    let mut memory = [Entry::FREE; CALLS];
    let mut answers = [Err(Failure::NoTicket); CALLS];
    let mut tickets: [Option<Ticket>; CALLS] = array::from_fn(|_| None);
    if perform(&mut memory, calls, &mut answers, &mut tickets).is_err() {
        return println!(rt; "the run wants more");
    }
    for answer in answers.iter().take(calls.len()) {
        println!(rt; "{}", Shown(answer))?;
    }
    Ok(())
}

fn main(rt: HostRuntime) -> io::Result<()> {
    run(&rt, &ONE_WAY)?;
    run(&rt, &BOTH_WAYS)
}
