// A script, cut into what it says: a call to a line, and under a sheet the lines of the sheet.
ghost use Rattle.std.specs.Prelude.{◌≡◌, ◌==◌, Some, codes, bytes_eq, count_by};
ghost use Rattle.stage.specs.Texts.{lines_text, said_text};

use std::alloc::{AllocError, Global};
use std::fmt;

// One call as the script says it, with its line in the script, counted from 1, and the sheet that stands under it.
#[derive(Drop)]
pub struct Said<'a> {
    pub line: usize,
    pub words: &'a str,
    pub sheet: Vec<u8>,
}

// How a count of lines is written.
#[derive(Clone, Copy)]
pub struct Lines(pub usize);

impl fmt::Display for Lines {
    ghost output = { λ l. Some (lines_text l.0) };

    fn fmt<W: fmt::Write>(&self, f: &mut fmt::Formatter<W>) -> fmt::Result {
        match self.0 {
            1 => f.write_str("1 line"),
            count => write!(f, "{count} lines"),
        }
    }
}

impl Said<'_> {
    fn is_sheet(&self) -> bool
        ensures { result ≡ bytes_eq self.now.words.now (codes "sheet") }
    {
        self.words == "sheet"
    }

    // Adds a line to the sheet, with the line feed that the script's line ended with.
    fn add(&mut self, columns: &str) -> Result<(), AllocError> {
        self.sheet.extend_from_slice(columns.as_bytes())?;
        self.sheet.push(b'\n')?;
        Ok(())
    }

    // How many lines the sheet has.
    fn lines(&self) -> Lines
        ensures { result.0 ≡ count_by (λ b. b == 10) self.now.sheet.items }
    {
        Lines(self.sheet.iter().filter(|b| **b == b'\n').count())
    }
}

impl fmt::Display for Said<'_> {
    ghost output = { λ s. Some (said_text s.words.now s.sheet.items) };

    fn fmt<W: fmt::Write>(&self, f: &mut fmt::Formatter<W>) -> fmt::Result {
        if self.is_sheet() {
            write!(f, "sheet of {}", self.lines())
        } else {
            f.write_str(self.words)
        }
    }
}

fn is_skipped(text: &str) -> bool {
    text.is_empty() || text.starts_with('#')
}

// The sheet to which the next line with a bar belongs.
fn open_sheet<'b, 'a>(said: &'b mut Vec<Said<'a>>) -> Option<&'b mut Said<'a>> {
    said.last_mut().filter(|last| last.is_sheet())
}

// Takes one more line. A line with a bar that stands under no sheet is kept as a call, so that it is found to be none.
fn take_line<'a>(
    heap: Global,
    said: &mut Vec<Said<'a>>,
    line: usize,
    text: &'a str,
) -> Result<(), AllocError> {
    if let Some(columns) = text.trim_start().strip_prefix('|')
        && let Some(sheet) = open_sheet(said)
    {
        return sheet.add(columns);
    }
    let words = text.trim();
    if !is_skipped(words) {
        let sheet = Vec::new(heap);
        said.push(Said { line, words, sheet })?;
    }
    Ok(())
}

// What a script says, in its order.
pub fn said_in(heap: Global, script: &str) -> Result<Vec<Said<'_>>, AllocError> {
    let mut said = Vec::new(heap);
    for (line, text) in (1usize..).zip(script.lines()) {
        take_line(heap, &mut said, line, text)?;
    }
    Ok(said)
}
