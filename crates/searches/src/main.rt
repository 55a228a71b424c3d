// Runs the search on wait lists at its edges, and prints what came of each.
#![tactic(auto)]

mod wait_lists;

use graphs::{Found, Wait, wait_order};
use refusals::Refusal;
use std::io;
use wait_lists::LISTS;
use words::Spaced;

// A wait list, with what it shows.
#[derive(Clone, Copy)]
pub struct Sample<'a> {
    pub shows: &'a str,
    pub rows: &'a [Wait],
}

// The byte that a strip is lent with.
const LENT: u8 = 9;

// By a function: `Result` is the library's type, and this crate cannot give it a `Display`.
fn print_found(rt: &HostRuntime, found: Result<Found, Refusal>) -> io::Result<()> {
    match found {
        Ok(Found::Order(count)) => println!(rt; "order of {count}"),
        Ok(Found::Cycle(count)) => println!(rt; "cycle of {count}"),
        Err(refusal) => println!(rt; "refused, {}", refusal.number()),
    }
}

// How many bytes are as they were lent.
fn kept(strip: &[u8]) -> usize {
    strip.iter().filter(|byte| **byte == LENT).count()
}

// Searches with a list of so many cells and a strip of so many bytes, and prints the answer, the first cells and what the strip
// kept.
fn show(
    rt: &HostRuntime,
    name: &str,
    rows: &[Wait],
    cells: usize,
    bytes: usize,
) -> anyhow::Result<()> {
    let mut list = vec![in rt.alloc(); 777u32; cells]?;
    let mut strip = vec![in rt.alloc(); LENT; bytes]?;
    let found = wait_order(rows, list.as_mut_slice(), strip.as_mut_slice());
    print!(rt; "{name}, {cells} cells, {bytes} bytes: ")?;
    print_found(rt, found)?;
    let first = &list.as_slice()[..cells.min(5)];
    println!(rt;
        "{}; {} bytes as they were",
        Spaced(first),
        kept(strip.as_slice())
    )?;
    Ok(())
}

// Each winch waits for the next, so that the last moves first; then the last waits for the first as well.
fn show_chains(rt: &HostRuntime) -> anyhow::Result<()> {
    let mut rows: Vec<Wait> = (1..64u32)
        .map(|n| Wait {
            winch: n,
            awaited: n + 1,
        })
        .collect(rt.alloc())?;
    for (cells, bytes) in [(64usize, 64usize), (65, 100), (63, 64), (63, 63)] {
        show(rt, "a chain backwards", rows.as_slice(), cells, bytes)?;
    }
    rows.push(Wait {
        winch: 64,
        awaited: 1,
    })?;
    show(rt, "one cycle", rows.as_slice(), 64, 64)?;
    show(rt, "one cycle", rows.as_slice(), 70, 65)
}

// One row, once or twice.
fn show_row(rt: &HostRuntime, name: &str, row: Wait, cells: usize) -> anyhow::Result<()> {
    show(rt, name, &[row], cells, 64)?;
    show(rt, name, &[row, row], cells, 64)
}

fn main(rt: HostRuntime) -> anyhow::Result<()> {
    show_chains(&rt)?;
    show(&rt, "no number", &[], 0, 64)?;
    show(&rt, "no number", &[], 3, 64)?;
    for (name, winch, awaited, cells) in [
        ("a winch that waits for itself", 7u32, 7u32, 1usize),
        ("a winch that waits for another", 2, 9, 2),
        ("winch 0", 0, 1, 0),
        ("winch 65", 1, 65, 64),
    ] {
        show_row(&rt, name, Wait { winch, awaited }, cells)?;
    }
    for list in LISTS {
        show(&rt, list.shows, list.rows, 4, 64)?;
    }
    Ok(())
}
