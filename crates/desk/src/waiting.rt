// A sheet of waits: a row to a line, with the winch and the winch that it waits for.
use graphs::{Found, Wait, wait_order};
use refusals::Refusal;
use std::io;

// The row that a line says: two numbers with blanks between.
fn row_of(line: &str) -> Option<Wait> {
    let mut words = line.split_whitespace();
    let winch = words.next()?.parse::<u32>().ok()?;
    let awaited = words.next()?.parse::<u32>().ok()?;
    match words.next() {
        None => Some(Wait { winch, awaited }),
        Some(_) => None,
    }
}

// Whether the wait list refuses a row for its numbers, which it looks at before the list and the strip.
fn is_out_of_range(row: Wait) -> bool {
    matches!(
        wait_order(&[row], &mut [], &mut []),
        Err(Refusal::NoSuchWinch)
    )
}

// Prints the order or the cycle that a search left at the front of the list, each number right-justified in five columns, or the
// number of its refusal. By a function: `Result` is the library's type, and this crate cannot give it a `Display`.
fn print_found(
    rt: &HostRuntime,
    found: Result<Found, Refusal>,
    list: &[u32; 64],
) -> io::Result<()> {
    let (word, count) = match found {
        Ok(Found::Order(count)) => ("order", count),
        Ok(Found::Cycle(count)) => ("cycle", count),
        Err(refusal) => return println!(rt; "refused{:>5}", refusal.number()),
    };
    print!(rt; "{word}")?;
    for cell in list.iter().take(count) {
        print!(rt; "{cell:>5}")?;
    }
    println!(rt; "")
}

// Reads rows of waits, and prints an order in which the winches can move, or a cycle of winches that wait for one another; or
// the first line that is no such row.
pub fn run_waits(rt: &HostRuntime) -> anyhow::Result<()> {
    let mut rows = Vec::new(rt.alloc());
    for (number, line) in (1usize..).zip(rt.lines(rt.alloc())) {
        let line = line?;
        let Some(row) = row_of(line.as_str()) else {
            println!(rt; "line {number}: not two numbers")?;
            return Ok(());
        };
        if is_out_of_range(row) {
            println!(rt; "line {number}: a winch is numbered 1 to 64")?;
            return Ok(());
        }
        rows.push(row)?;
    }
    let mut winches = [0u32; 64];
    let mut strip = [0u8; 64];
    let found = wait_order(rows.as_slice(), &mut winches, &mut strip);
    print_found(rt, found, &winches)?;
    Ok(())
}
