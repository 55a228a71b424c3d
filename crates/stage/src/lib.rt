// What the programs that rehearse do: a script of calls is read from standard input, performed on a new book, and printed with
// its answers.
#![tactic(auto)]

mod answers;
mod calls;
mod faults;
mod kinds;
mod scripts;

use answers::Told;
use calls::read_calls;
use faults::Unread;
use history::Entry;
use items::{Axis, Item, Mark};
use kinds::Kind;
use runs::{Call, Failure, perform};
use scripts::{Said, said_in};
use std::io::Read;
use std::str::from_utf8;

// How many entries the book has memory for: as many as a book uses.
const PLACES: usize = 4096;

// Performs the calls, and prints each with its answer.
fn print_run<K: Item>(
    rt: &HostRuntime,
    said: &[Said<'_>],
    calls: &[Call<'_, K>],
) -> anyhow::Result<()> {
    let mut memory = vec![in rt.alloc(); Entry::FREE; PLACES]?;
    let mut answers = vec![in rt.alloc(); Err(Failure::NoTicket); calls.len()]?;
    let mut tickets = Vec::new(rt.alloc());
    tickets.resize_with(calls.len(), || None)?;
    if let Err(want) = perform(
        memory.as_mut_slice(),
        calls,
        answers.as_mut_slice(),
        tickets.as_mut_slice(),
    ) {
        println!(rt; "{want}")?;
        return Ok(());
    }
    for (one, answer) in said.iter().zip(answers.iter()) {
        println!(rt; "{one}: {}", Told(answer))?;
    }
    Ok(())
}

// Reads the calls, which are of one kind of item, and performs them. Where a line cannot be read none is performed.
fn rehearse<K: Kind>(rt: &HostRuntime, said: &[Said<'_>]) -> anyhow::Result<()> {
    match read_calls::<K>(rt.alloc(), said) {
        Ok(calls) => print_run(rt, said, calls.as_slice()),
        Err(Unread::Fault(fault)) => {
            println!(rt; "{fault}")?;
            Ok(())
        }
        Err(Unread::Memory(error)) => Err(anyhow::Error::from(error)),
    }
}

// Reads a script, and prints each of its calls with its answer, or the first line that cannot be read. Its first line may choose
// the kind of its items, which are axes otherwise.
pub fn run_script(rt: &HostRuntime, script: &[u8]) -> anyhow::Result<()> {
    let Ok(script) = from_utf8(script) else {
        println!(rt; "the script is not text in UTF-8")?;
        return Ok(());
    };
    let said = said_in(rt.alloc(), script)?;
    match said.split_first() {
        Some((first, rest)) if first.words == "axes" => rehearse::<Axis>(rt, rest),
        Some((first, rest)) if first.words == "marks" => rehearse::<Mark>(rt, rest),
        _ => rehearse::<Axis>(rt, said.as_slice()),
    }
}

// The same of the script on standard input.
pub fn run(rt: &HostRuntime) -> anyhow::Result<()> {
    let mut bytes = Vec::new(rt.alloc());
    rt.stdin().read_to_end(&mut bytes)?;
    run_script(rt, bytes.as_slice())
}
