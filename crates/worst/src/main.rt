// Asks views of books at their worst, full ones but the last, and of lists at their edges, and prints each answer. With two words, the number of a book
// and a count, it asks that book so often, for a clock outside.
#![tactic(auto)]

use book::Book;
use history::{Act, Entry};
use items::Axis;
use refusals::Refusal;
use std::{env, fmt, io};
use words::Spaced;

const PLACES: usize = 4096;

// How many entries come before the eight commits that end a full book.
const BODY: usize = 4088;

// The books, by what they hold.
#[derive(Clone, Copy, PartialEq, Eq, Debug)]
enum Kind {
    WritesApart,
    WritesTogether,
    ReadsThenWrites,
    ReadsAndWrites,
    WrittenTwice,
    TwoSources,
}

// The books by their numbers, from 0.
const KINDS: [Kind; 6] = [
    Kind::WritesApart,
    Kind::WritesTogether,
    Kind::ReadsThenWrites,
    Kind::ReadsAndWrites,
    Kind::WrittenTwice,
    Kind::TwoSources,
];

impl fmt::Display for Kind {
    fn fmt<W: fmt::Write>(&self, f: &mut fmt::Formatter<W>) -> fmt::Result {
        f.write_str(match self {
            Kind::WritesApart => "writes of different axes",
            Kind::WritesTogether => "writes of one axis",
            Kind::ReadsThenWrites => "reads, then writes of different axes",
            Kind::ReadsAndWrites => "reads and writes of one axis",
            Kind::WrittenTwice => "each axis written twice and read",
            Kind::TwoSources => "two sources that keep each other from a reader",
        })
    }
}

const FIRST: Axis = Axis { number: 1 };

const SECOND: Axis = Axis { number: 2 };

// Cues 1 and 5 write both of two axes, one after the other and the other way round, cue 7 reads each, and cue 8 writes both last:
// of 1 and 5 neither may stand between the other and 7.
const SOURCES: [Entry<Axis>; 8] = [
    Entry {
        cue: 1,
        act: Act::Write(FIRST),
    },
    Entry {
        cue: 5,
        act: Act::Write(FIRST),
    },
    Entry {
        cue: 7,
        act: Act::Read(FIRST),
    },
    Entry {
        cue: 5,
        act: Act::Write(SECOND),
    },
    Entry {
        cue: 1,
        act: Act::Write(SECOND),
    },
    Entry {
        cue: 7,
        act: Act::Read(SECOND),
    },
    Entry {
        cue: 8,
        act: Act::Write(FIRST),
    },
    Entry {
        cue: 8,
        act: Act::Write(SECOND),
    },
];

// The axis of a number, of which as many differ as there are.
fn axis(n: usize) -> Axis {
    Axis {
        number: (n % 65_536) as u16,
    }
}

impl Kind {
    // Entry `i`. A full book has more of them than it has room for.
    fn entry(self, i: usize) -> Option<Entry<Axis>> {
        let (turn, act) = match self {
            Kind::WritesApart => (i, Act::Write(axis(i))),
            Kind::WritesTogether => (i, Act::Write(axis(7))),
            Kind::ReadsThenWrites if i < BODY / 2 => (i, Act::Read(axis(i))),
            Kind::ReadsThenWrites => (i, Act::Write(axis(i))),
            Kind::ReadsAndWrites if i % 2 == 0 => (i / 2, Act::Read(axis(7))),
            Kind::ReadsAndWrites => (i / 2, Act::Write(axis(7))),
            Kind::WrittenTwice if i % 3 == 2 => (i, Act::Read(axis(i / 3))),
            Kind::WrittenTwice => (i, Act::Write(axis(i / 3))),
            Kind::TwoSources => return SOURCES.get(i).copied(),
        };
        Some(Entry {
            cue: (turn % 8) as u32 + 1,
            act,
        })
    }
}

fn enter(book: &mut Book<'_, Axis>, entry: Entry<Axis>) {
    let _ = book.enter(entry);
}

fn commit(book: &mut Book<'_, Axis>, cue: u32) {
    enter(
        book,
        Entry {
            cue,
            act: Act::Commit,
        },
    );
}

// A book of a kind, with eight committed cues.
fn fill(book: &mut Book<'_, Axis>, kind: Kind) {
    for entry in (0..BODY).map_while(|i| kind.entry(i)) {
        enter(book, entry);
    }
    for cue in 1..=8u32 {
        commit(book, cue);
    }
}

// By a function: `Result` is the library's type, and this crate cannot give it a `Display`.
fn print_answer(
    rt: &HostRuntime,
    answer: Result<Option<usize>, Refusal>,
    list: &[u32],
) -> io::Result<()> {
    match answer {
        Ok(Some(count)) => print!(rt; "views of {count},")?,
        Ok(None) => print!(rt; "none,")?,
        Err(refusal) => print!(rt; "refused {},", refusal.number())?,
    }
    println!(rt; "{}", Spaced(list))
}

// Asks views of one book with lists of several lengths, whose cells are 777 before.
fn print_lists(rt: &HostRuntime, committed: u32) -> anyhow::Result<()> {
    let mut memory = [Entry::FREE; 64];
    let mut book = Book::new(&mut memory);
    for cue in 1..=committed {
        commit(&mut book, cue);
    }
    for cells in [0usize, 7, 8, 10] {
        let mut list = vec![in rt.alloc(); 777u32; cells]?;
        let answer = book.views(list.as_mut_slice());
        print!(rt; "{committed} committed cues, {cells} cells: ")?;
        print_answer(rt, answer, list.as_slice())?;
    }
    Ok(())
}

// The number that a word says.
fn number(word: Option<String>) -> Option<usize> {
    word?.as_str().parse::<usize>().ok()
}

// Asks views of the book of a kind so often, with nine cells.
fn run(rt: &HostRuntime, kind: Kind, count: usize) -> io::Result<()> {
    let mut memory = [Entry::FREE; PLACES];
    let mut book = Book::new(&mut memory);
    fill(&mut book, kind);
    for _ in 0..count {
        let mut list = [777u32; 9];
        let answer = book.views(&mut list);
        print_answer(rt, answer, &list)?;
    }
    Ok(())
}

fn main(rt: HostRuntime) -> anyhow::Result<()> {
    let mut words = env::args(&rt)?;
    words.next();
    if let Some(kind) = number(words.next()) {
        // Any other number is taken for the fifth book.
        let kind = KINDS.get(kind).copied().unwrap_or(Kind::WrittenTwice);
        let count = number(words.next()).unwrap_or(1);
        run(&rt, kind, count)?;
        return Ok(());
    }
    for kind in KINDS {
        print!(rt; "{kind}: ")?;
        run(&rt, kind, 1)?;
    }
    for committed in [0u32, 8, 9] {
        print_lists(&rt, committed)?;
    }
    Ok(())
}
