// Writes under tickets as they are meant to be used, and prints each answer. The changes in `tools/misuses` use a ticket once more than that.
#![tactic(auto)]

use book::{Book, Receipt, Step, Ticket};
use history::{Ending, Entry};
use items::Axis;
use refusals::Refusal;
use std::io;

const LIGHT: Axis = Axis { number: 5 };

// What comes of a call is printed by functions: `Result` is the library's type, and this crate cannot give it a `Display`.
fn print_begun(rt: &HostRuntime, answer: Result<Ticket, Refusal>) -> io::Result<()> {
    match answer {
        Ok(ticket) => println!(rt; "a ticket for cue {}", ticket.cue()),
        Err(refusal) => println!(rt; "no ticket, {}", refusal.number()),
    }
}

fn print_place(rt: &HostRuntime, answer: Result<usize, Refusal>) -> io::Result<()> {
    match answer {
        Ok(place) => println!(rt; "recorded at {place}"),
        Err(refusal) => println!(rt; "not recorded, {}", refusal.number()),
    }
}

fn print_receipt(rt: &HostRuntime, receipt: &Receipt) -> io::Result<()> {
    let ended = match receipt.ending {
        Ending::Commit => "committed",
        Ending::Abort => "aborted",
    };
    println!(rt; "{ended} at {}", receipt.place)
}

fn print_ended(rt: &HostRuntime, answer: &Result<Receipt, (Ticket, Refusal)>) -> io::Result<()> {
    match answer {
        Ok(receipt) => print_receipt(rt, receipt),
        Err((ticket, refusal)) => println!(rt;
            "not ended, {}, the ticket for cue {} is back",
            refusal.number(),
            ticket.cue()
        ),
    }
}

// Two cues, one after the other.
fn in_turn(rt: &HostRuntime, book: &mut Book<'_, Axis>) -> io::Result<()> {
    let Ok(first) = book.begin(1) else {
        return Ok(());
    };
    print_place(rt, book.record(&first, Step::Write(LIGHT)))?;
    print_place(rt, book.record(&first, Step::Read(LIGHT)))?;
    let ended = book.end(first, Ending::Commit);
    print_ended(rt, &ended)?;
    let Ok(second) = book.begin(2) else {
        return Ok(());
    };
    print_place(rt, book.record(&second, Step::Write(LIGHT)))?;
    print_ended(rt, &book.end(second, Ending::Abort))
}

// A cue that has an entry, and numbers outside 1 to 64.
fn refused(rt: &HostRuntime, book: &Book<'_, Axis>) -> io::Result<()> {
    for cue in [1u32, 2, 0, 65, 3] {
        print!(rt; "begin {cue}: ")?;
        print_begun(rt, book.begin(cue))?;
    }
    Ok(())
}

// A book with no place for the ending: the ticket that comes back is as good as before.
fn full(rt: &HostRuntime, book: &mut Book<'_, Axis>) -> io::Result<()> {
    let Ok(ticket) = book.begin(7) else {
        return Ok(());
    };
    print_place(rt, book.record(&ticket, Step::Write(LIGHT)))?;
    match book.end(ticket, Ending::Commit) {
        Ok(receipt) => print_receipt(rt, &receipt),
        Err((back, refusal)) => {
            println!(rt; "not ended, {}", refusal.number())?;
            print_place(rt, book.record(&back, Step::Read(LIGHT)))?;
            print_ended(rt, &book.end(back, Ending::Abort))
        }
    }
}

fn main(rt: HostRuntime) -> io::Result<()> {
    let mut memory = [Entry::FREE; 8];
    let mut book = Book::new(&mut memory);
    in_turn(&rt, &mut book)?;
    refused(&rt, &book)?;
    let mut little = [Entry::FREE; 1];
    full(&rt, &mut Book::new(&mut little))
}
