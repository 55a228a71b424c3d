// A sheet of axes: its report.
use report::{LONGEST, cue_report};
use std::io;
use std::io::{Read, Write};

// How much of the input is read: a line more than the book of the report holds.
const SHEET: u64 = 32_784;

// Reads the first bytes of the input as a sheet, and prints its report.
pub fn run(rt: &HostRuntime) -> io::Result<()> {
    let mut sheet = Vec::new(rt.alloc());
    rt.stdin().take(SHEET).read_to_end(&mut sheet)?;
    let mut space = [0u8; LONGEST];
    let count = cue_report(sheet.as_slice(), &mut space).unwrap();
    rt.stdout().write_all(&space[..count])
}
