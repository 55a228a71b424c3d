// Reading a line: the entry that its fields say.
ghost use Rattle.std.specs.Prelude.{◌≡◌, if◌then◌else◌, Ok, Err, slice_index};
ghost use Rattle.std.specs.Option.{ok_or};
ghost use Rattle.refusals.specs.declared.LineRefusal.TheVariants.{CueField, ItemField};
ghost use Rattle.columns.specs.Columns.{number};
ghost use Rattle.lines.specs.Cutting.{WellCut, seen, viewed};
ghost use Rattle.lines.specs.Reading.{blank, act_in, entry_in, next_in};
ghost use Rattle.lines.specs.LineIsTold.{LineIsTold};

use crate::cuts::{Field, Fields, cut};
use columns::read_number;
use history::{Act, Entry};
use items::Item;
use refusals::LineRefusal;

// The fields of a line as it was cut: those that are read are as wide as a line's, and hold what their cases say.
#[derive(Clone, Copy)]
struct Line<'a> {
    fields: Fields<'a>,
    ghost well: { WellCut (viewed fields) },
}

impl Line<'_> {
    // The number in the cue field.
    fn cue(self) -> Result<u32, LineRefusal>
        ensures { result ≡ ok_or (number (seen self.entry.fields.cue).bytes) CueField }
    {
        match self.fields.cue {
            Field::Digits(part) => read_number(part.bytes, 9999).ok_or(LineRefusal::CueField),
            _ => Err(LineRefusal::CueField),
        }
    }

    // The item in the item field.
    fn item<K: Item>(self) -> Result<K, LineRefusal>
        ensures { result ≡ ok_or (K.Item.parsed (seen self.entry.fields.item).bytes) ItemField }
    {
        let mut bytes = [b' '; 8];
        bytes.copy_from_slice(self.fields.item.part().bytes);
        K::read(&bytes).ok_or(LineRefusal::ItemField)
    }

    // That the item field is blank.
    fn no_item(self) -> Result<(), LineRefusal>
        ensures { result ≡ (if blank (seen self.entry.fields.item).bytes then Ok tt else Err ItemField) }
    {
        match self.fields.item {
            Field::Blanks(_) => Ok(()),
            _ => Err(LineRefusal::ItemField),
        }
    }

    // The letter. A cut line's field has its column; 0 is no letter.
    fn letter(self) -> u8
        ensures { result ≡ slice_index (seen self.entry.fields.letter).bytes 0 }
    {
        let bytes = self.fields.letter.part().bytes;
        bytes.first().copied().unwrap_or(0)
    }

    // The act that the letter and the item field say.
    fn act<K: Item>(self) -> Result<Act<K>, LineRefusal>
        ensures { result ≡ act_in K.Item.parsed (slice_index (seen self.entry.fields.letter).bytes 0) (seen self.entry.fields.item).bytes }
    {
        match self.letter() as char {
            'r' => Ok(Act::Read(self.item()?)),
            'w' => Ok(Act::Write(self.item()?)),
            'c' => {
                self.no_item()?;
                Ok(Act::Commit)
            }
            'a' => {
                self.no_item()?;
                Ok(Act::Abort)
            }
            _ => Err(LineRefusal::Letter),
        }
    }

    // The entry that the fields say.
    fn entry<K: Item>(self) -> Result<Entry<K>, LineRefusal>
        ensures { result ≡ entry_in K.Item.parsed (viewed self.entry.fields) }
    {
        let cue = self.cue()?;
        if !self.fields.spaced {
            return Err(LineRefusal::Letter);
        }
        let act = self.act()?;
        Ok(Entry { cue, act })
    }
}

// Reads the first line of what remains of a sheet; `None` at the end.
pub fn read_line<K: Item>(sheet: &[u8]) -> Result<Option<Entry<K>>, LineRefusal>
    ensures { result ≡ next_in K.Item.parsed sheet.now }
{
    match cut(sheet)? {
        None => Ok(None),
        Some(fields) => Ok(Some(Line { fields }.entry()?)),
    }
}

// That a line says the entry whose cue is the number in columns 1 to 4, whose act has its letter in
// column 6, between blanks, and whose item columns 8 to 15 hold; that it is refused by the first of
// these that it does not have; and that reading gives what the line says and nothing else.
pub fn line_is_told<K: Item>()
    ensures { LineIsTold K.Item.parsed }
{}
