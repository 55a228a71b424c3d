// Why a line of a script cannot be read.
ghost use Rattle.std.specs.Prelude.{Some};
ghost use Rattle.stage.specs.Texts.{expected_text, fault_text};

use std::alloc::{AllocError, AllocFailed};
use std::fmt;

// What should have stood where reading stopped.
#[derive(Clone, Copy)]
pub enum Expected {
    Call,
    Sheet,
    Cue,
    Ticket,
    Act,
    Step,
    Ending,
    // How long a list is, in cells, and how long a strip, in bytes.
    Cells,
    Bytes,
    // An item, in the words of its kind.
    Item(&'static str),
    End,
}

impl fmt::Display for Expected {
    ghost output = { λ e. Some (expected_text e) };

    fn fmt<W: fmt::Write>(&self, f: &mut fmt::Formatter<W>) -> fmt::Result {
        f.write_str(match self {
            Expected::Call => {
                "a call: enter, begin, record, end, sheet, class, order, views or why"
            }
            Expected::Sheet => "the word sheet above lines with |",
            Expected::Cue => "a cue number",
            Expected::Ticket => "a ticket number",
            Expected::Act => "r, w, c or a",
            Expected::Step => "r or w",
            Expected::Ending => "c or a",
            Expected::Cells => "a number of cells",
            Expected::Bytes => "a number of bytes",
            Expected::Item(words) => *words,
            Expected::End => "no more words",
        })
    }
}

// The first line that cannot be read, counted from 1.
#[derive(Clone, Copy)]
pub struct Fault {
    pub line: usize,
    pub expected: Expected,
}

impl fmt::Display for Fault {
    ghost output = { λ f. Some (fault_text f) };

    fn fmt<W: fmt::Write>(&self, f: &mut fmt::Formatter<W>) -> fmt::Result {
        write!(f, "line {}: expected {}", self.line, self.expected)
    }
}

// Why the calls of a script are not read.
#[derive(Clone, Copy)]
pub enum Unread {
    Fault(Fault),
    Memory(AllocError),
}

impl From<Fault> for Unread {
    fn from(fault: Fault) -> Unread {
        Unread::Fault(fault)
    }
}

impl<T: Drop> From<AllocFailed<T>> for Unread {
    fn from(failed: AllocFailed<T>) -> Unread {
        Unread::Memory(AllocError::from(failed))
    }
}
