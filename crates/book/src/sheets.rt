// Reading a sheet into a book.
ghost use Rattle.std.specs.Prelude.{◌≡◌};
ghost use Rattle.book.specs.Entering.{room, accepted, Lays};
ghost use Rattle.book.specs.Reading.{next_entered, told, added, read_in};
ghost use Rattle.book.specs.ReadsIn.{ReadsIn, ReadsInIsReadIn};
ghost use Rattle.book.specs.Sheets.{SheetsAreLines, FaultsStand, CountsStand, EntriesStay};

use crate::Book;
use items::Item;
use lines::{LINE, read_line};
use refusals::Layer;

// Why a sheet is not read to its end: the first line that was refused, counted from 1.
#[derive(Clone, Copy, PartialEq, Eq, Debug)]
pub struct ReadFault {
    pub line: usize,
    pub layer: Layer,
}

// The fault of a line, by its number and what refused it.
impl From<(usize, Layer)> for ReadFault {
    ghost from_gives = { λ f r. r ≡ record { line = f.0; layer = f.1 } };

    fn from((line, layer): (usize, Layer)) -> ReadFault {
        ReadFault { line, layer }
    }
}

impl<'a, K: Item> Book<'a, K> {
    // Enters the entry that a line says. A line without a byte says none.
    fn enter_line(&mut self, line: &[u8]) -> Result<(), Layer>
        ensures answer { result
            ≡ told (next_entered K.Item.parsed (room self.old) (accepted self.old) line.now) }
        ensures grows { accepted self.new ≡ added (accepted self.old)
            (next_entered K.Item.parsed (room self.old) (accepted self.old) line.now) }
        ensures lays { Lays self.old self.new }
    {
        if let Some(entry) = read_line(line)? {
            self.enter(entry)?;
        }
        Ok(())
    }

    // Enters the lines of a sheet in turn until one is refused, and answers how many there were,
    // or the fault of the first line that is refused (1 to 4, 11 to 13); the lines before it stay
    // entered.
    pub fn read_in(&mut self, sheet: &[u8]) -> Result<usize, ReadFault>
        ensures answer { result
            ≡ (read_in K.Item.parsed (room self.old) (accepted self.old) sheet.now).answer }
        ensures grows { accepted self.new
            ≡ (read_in K.Item.parsed (room self.old) (accepted self.old) sheet.now).entries }
        ensures reads { ReadsIn K.Item.parsed (room self.old) (accepted self.old) sheet.now
            (record { answer = result; entries = accepted self.new }) }
        ensures lays { Lays self.old self.new }
    {
        for (i, line) in sheet.chunks(LINE).enumerate() {
            if let Err(layer) = self.enter_line(line) {
                return Err(ReadFault::from((i + 1, layer)));
            }
        }
        Ok(sheet.len().div_ceil(LINE))
    }
}

// That the relation of reading in holds of what the equation gives, and of nothing else.
pub fn reads_in_stands<K: Item>()
    ensures { ReadsInIsReadIn K.Item.parsed }
{}

// That a sheet is its lines, each of 16 bytes and the last of 1 to 16; that where a line is refused
// those before it are read as they would be without it and what follows, one entry for each; that a
// count is answered only where all lines are read, one entry for each; and that the entries that
// were there stay.
pub fn sheets_are_told<K: Item>()
    ensures lines { SheetsAreLines }
    ensures faults { FaultsStand K.Item.parsed }
    ensures counts { CountsStand K.Item.parsed }
    ensures stay { EntriesStay K.Item.parsed }
{}
