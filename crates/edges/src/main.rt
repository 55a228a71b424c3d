// Runs the calls on edge cases, and prints each case with its answer.
#![tactic(auto)]

use book::Book;
use history::{Act, Entry};
use items::{Axis, Item, Mark};
use lines::copy_line;
use refusals::Layer;
use std::io;

#[derive(Clone, Copy)]
struct Case<'a> {
    name: &'a str,
    sheet: &'a [u8],
}

// Lines that are taken or refused, as a sheet of axes.
const LINES: [Case<'static>; 24] = [
    Case {
        name: "no byte",
        sheet: b"",
    },
    Case {
        name: "a read",
        sheet: b"   1 r        0\n",
    },
    Case {
        name: "cue 64, axis 65535",
        sheet: b"  64 w    65535\n",
    },
    Case {
        name: "cue 65",
        sheet: b"  65 w        5\n",
    },
    Case {
        name: "cue 9999",
        sheet: b"9999 w        5\n",
    },
    Case {
        name: "cue 0",
        sheet: b"   0 w        5\n",
    },
    Case {
        name: "cue 00",
        sheet: b"  00 w        5\n",
    },
    Case {
        name: "no cue",
        sheet: b"     w        5\n",
    },
    Case {
        name: "cue not at the right",
        sheet: b"1    w        5\n",
    },
    Case {
        name: "column 5",
        sheet: b"   1xw        5\n",
    },
    Case {
        name: "column 7",
        sheet: b"   1 wx       5\n",
    },
    Case {
        name: "letter x",
        sheet: b"   1 x        5\n",
    },
    Case {
        name: "letter W",
        sheet: b"   1 W        5\n",
    },
    Case {
        name: "axis 65536",
        sheet: b"   1 w    65536\n",
    },
    Case {
        name: "axis 99999999",
        sheet: b"   1 w 99999999\n",
    },
    Case {
        name: "axis 05",
        sheet: b"   1 w       05\n",
    },
    Case {
        name: "no axis",
        sheet: b"   1 w         \n",
    },
    Case {
        name: "a mark for an axis",
        sheet: b"   1 w     trap\n",
    },
    Case {
        name: "a commit with an item",
        sheet: b"   1 c        5\n",
    },
    Case {
        name: "a line feed in column 3",
        sheet: b"  \n1 w        5\n",
    },
    Case {
        name: "no last line feed",
        sheet: b"   1 w        5",
    },
    Case {
        name: "another last byte",
        sheet: b"   1 w        5 ",
    },
    Case {
        name: "a short tail",
        sheet: b"   1 w        5\n   1",
    },
    Case {
        name: "a byte past 127",
        sheet: b"   1 w       \xff5\n",
    },
];

// Marks of either case, and fields that hold none.
const MARKS: [Case<'static>; 7] = [
    Case {
        name: "mark trap",
        sheet: b"   1 w     trap\n",
    },
    Case {
        name: "mark TRAP",
        sheet: b"   1 w     TRAP\n",
    },
    Case {
        name: "mark TrapDoor",
        sheet: b"   1 w TrapDoor\n",
    },
    Case {
        name: "mark z",
        sheet: b"   1 r        z\n",
    },
    Case {
        name: "no mark",
        sheet: b"   1 r         \n",
    },
    Case {
        name: "an axis for a mark",
        sheet: b"   1 r        5\n",
    },
    Case {
        name: "a blank inside",
        sheet: b"   1 r     tr p\n",
    },
];

// The book's own refusals, each after a line that is entered.
const BOOKS: [Case<'static>; 3] = [
    Case {
        name: "after a commit",
        sheet: b"   1 c         \n   1 r        5\n",
    },
    Case {
        name: "after an abort",
        sheet: b"   1 a         \n   1 c         \n",
    },
    Case {
        name: "a fifth entry",
        sheet: b"   1 r        1\n   2 r        1\n   3 r        1\n   4 r        1\n   5 r        1\n",
    },
];

fn show<K: Item>(rt: &HostRuntime, case: Case<'_>, memory: &mut [Entry<K>]) -> io::Result<()> {
    let mut book = Book::new(memory);
    print!(rt; "{}: ", case.name)?;
    match book.read_in(case.sheet) {
        Ok(lines) => println!(rt; "{lines} entered"),
        Err(fault) => {
            let by = match fault.layer {
                Layer::Line(_) => "as a line",
                Layer::Book(_) => "from the book",
            };
            println!(rt;
                "line {} gets {} {by}, {} entered",
                fault.line,
                fault.layer.number(),
                book.entries().len()
            )
        }
    }
}

// How many entries a book over so many places takes, and the refusal of the next.
fn fill(rt: &HostRuntime, places: usize) -> anyhow::Result<()> {
    let mut memory = vec![in rt.alloc(); Entry::FREE; places]?;
    let mut book = Book::new(memory.as_mut_slice());
    for i in 0..6000u32 {
        let entry = Entry {
            cue: i % 64 + 1,
            act: Act::Read(Axis { number: 7 }),
        };
        if let Err(refusal) = book.enter(entry) {
            println!(rt;
                "{places} places: {} entered, then {}",
                book.entries().len(),
                refusal.number()
            )?;
            break;
        }
    }
    Ok(())
}

// Lines to copy as marks, whose case is kept.
const COPIES: [Case<'static>; 4] = [
    Case {
        name: "a mark of both cases",
        sheet: b"   7 w TrapDoor\nrest",
    },
    Case {
        name: "an abort",
        sheet: b"  64 a         \n",
    },
    Case {
        name: "a cue that cannot be written",
        sheet: b"  65 a         \n",
    },
    Case {
        name: "a line that cannot be read",
        sheet: b"  64 x         \n",
    },
];

// Copies a line into a space of `size` bytes, and prints what came of it and what the space then holds.
fn copy(rt: &HostRuntime, case: Case<'_>, size: usize) -> anyhow::Result<()> {
    let mut space = vec![in rt.alloc(); b'.'; size]?;
    print!(rt; "{} into {size} bytes: ", case.name)?;
    match copy_line::<Mark>(case.sheet, space.as_mut_slice()) {
        Ok(true) => println!(rt; "copied")?,
        Ok(false) => println!(rt; "the end")?,
        Err(layer) => println!(rt; "not copied, {}", layer.number())?,
    }
    println!(rt; "{space:?}")?;
    Ok(())
}

fn main(rt: HostRuntime) -> anyhow::Result<()> {
    for case in LINES.iter().chain(&BOOKS) {
        show(&rt, *case, &mut [Entry::<Axis>::FREE; 4])?;
    }
    for case in &MARKS {
        show(&rt, *case, &mut [Entry::<Mark>::FREE; 4])?;
    }
    for places in [0usize, 1, 4096, 5000] {
        fill(&rt, places)?;
    }
    for case in &COPIES {
        copy(&rt, *case, 18)?;
    }
    copy(&rt, COPIES[0], 15)?;
    copy(&rt, COPIES[2], 15)?;
    copy(&rt, LINES[0], 16)?;
    Ok(())
}
