// Runs sample books through the calls, and prints each with its answers.
#![tactic(auto)]

mod books;
mod notation;

use book::Book;
use books::{AXES, MARKS};
use graphs::Found;
use history::Entry;
use items::{Axis, Item, Mark};
use notation::entry_of;
use std::io;
use words::Spaced;

// A book in the textbook's notation, as w1(5) for cue 1 writing item 5, with what it shows.
#[derive(Clone, Copy)]
pub struct Sample<'a> {
    pub shows: &'a str,
    pub book: &'a str,
}

// How many entries a sample has at most.
const PLACES: usize = 20;

// Cues after a word for what they are. This and what follows by functions: `Result` is the library's type, and this crate cannot give
// it a `Display`.
fn print_cues(rt: &HostRuntime, word: &str, cues: &[u32]) -> io::Result<()> {
    println!(rt; "  {word}{}", Spaced(cues))
}

// The order of the committed cues, or a cycle.
fn print_order<K: Item>(rt: &HostRuntime, book: &Book<'_, K>) -> io::Result<()> {
    let mut cues = [0u32; 64];
    let mut strip = [0u8; 64];
    match book.order(&mut cues, &mut strip) {
        Ok(Found::Order(count)) => print_cues(rt, "order", &cues[..count]),
        Ok(Found::Cycle(count)) => print_cues(rt, "cycle", &cues[..count]),
        Err(refusal) => println!(rt; "  order is refused, {}", refusal.number()),
    }
}

// The first view-equivalent order, or that there is none.
fn print_views<K: Item>(rt: &HostRuntime, book: &Book<'_, K>) -> io::Result<()> {
    let mut cues = [0u32; 8];
    match book.views(&mut cues) {
        Ok(Some(count)) => print_cues(rt, "views", &cues[..count]),
        Ok(None) => println!(rt; "  views: none"),
        Err(refusal) => println!(rt; "  views are refused, {}", refusal.number()),
    }
}

// What put one cue before another.
fn print_why<K: Item>(rt: &HostRuntime, book: &Book<'_, K>, i: u32, j: u32) -> io::Result<()> {
    print!(rt; "  why {i} {j}: ")?;
    match book.why(i, j) {
        Ok(Some(pair)) => println!(rt; "{} {}", pair.first, pair.second),
        Ok(None) => println!(rt; "none"),
        Err(refusal) => println!(rt; "refused, {}", refusal.number()),
    }
}

fn print_answers<K: Item>(rt: &HostRuntime, book: &Book<'_, K>) -> io::Result<()> {
    let class = book.class();
    println!(rt; "  class {} {}", class.number(), class.place())?;
    print_order(rt, book)?;
    print_views(rt, book)?;
    print_why(rt, book, 1, 2)?;
    print_why(rt, book, 2, 1)
}

// Enters what the words say, and prints each word that says no entry, or whose entry is refused.
fn enter<K: Item>(rt: &HostRuntime, book: &mut Book<'_, K>, words: &str) -> io::Result<()> {
    for word in words.split_whitespace() {
        let Some(entry) = entry_of(word) else {
            println!(rt; "  {word} says no entry")?;
            continue;
        };
        if let Err(refusal) = book.enter(entry) {
            println!(rt; "  {word} is refused, {}", refusal.number())?;
        }
    }
    Ok(())
}

// Each sample, with the answers about its book, which is laid out in the memory.
fn print_samples<K: Item>(
    rt: &HostRuntime,
    samples: &[Sample<'_>],
    memory: &mut [Entry<K>],
) -> io::Result<()> {
    for sample in samples {
        println!(rt; "{}: {}", sample.shows, sample.book)?;
        let mut book = Book::new(memory);
        enter(rt, &mut book, sample.book)?;
        print_answers(rt, &book)?;
    }
    Ok(())
}

fn main(rt: HostRuntime) -> io::Result<()> {
    print_samples(&rt, &AXES, &mut [Entry::<Axis>::FREE; PLACES])?;
    print_samples(&rt, &MARKS, &mut [Entry::<Mark>::FREE; PLACES])?;
    let mut memory = [Entry::<Axis>::FREE; 1];
    let book = Book::new(&mut memory);
    for (i, j) in [(0u32, 1u32), (1, 65), (64, 64), (1, 64)] {
        print_why(&rt, &book, i, j)?;
    }
    Ok(())
}
