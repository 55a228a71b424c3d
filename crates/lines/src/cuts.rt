// Cutting a line into its fields.
ghost use Rattle.std.specs.Prelude.{◌≡◌, ◌≤◌, length};
ghost use Rattle.lines.specs.Cutting.{whole, field_of, spaced_in, cut_of, seen, viewed_cut};
ghost use Rattle.lines.specs.CutIsTold.{CutIsTold};

use crate::LINE;
use columns::{Symbol, after_blanks};
use refusals::LineRefusal;

// A part of a line, with its first column, counted from 1.
#[derive(Clone, Copy)]
pub struct Part<'a> {
    pub column: usize,
    pub bytes: &'a [u8],
}

// A field of a line, by what stands in it after leading blanks.
#[derive(Clone, Copy)]
pub enum Field<'a> {
    Digits(Part<'a>),
    Letters(Part<'a>),
    Blanks(Part<'a>),
    Other(Part<'a>),
}

impl<'a> Field<'a> {
    // The whole field, blanks and all.
    pub fn part(self) -> Part<'a>
        ensures column { result.column ≡ (seen self.entry).column }
        ensures bytes { result.bytes.now ≡ (seen self.entry).bytes }
    {
        match self {
            Field::Digits(part) | Field::Letters(part) | Field::Blanks(part) | Field::Other(part) =>
                part,
        }
    }
}

// The fields of a line, and whether the columns beside its letter are blank, on which no field hangs.
#[derive(Clone, Copy)]
pub struct Fields<'a> {
    pub cue: Field<'a>,
    pub letter: Field<'a>,
    pub item: Field<'a>,
    pub spaced: bool,
}

// The field that begins in a column.
fn field_at(column: usize, bytes: &[u8]) -> Field<'_>
    ensures { seen result ≡ field_of column bytes.now }
{
    let part = Part { column, bytes };
    let text = after_blanks(bytes);
    if text.is_empty() {
        Field::Blanks(part)
    } else if Symbol::Digit.fills(text) {
        Field::Digits(part)
    } else if Symbol::Letter.fills(text) {
        Field::Letters(part)
    } else {
        Field::Other(part)
    }
}

// Whether 16 bytes remain of which the last is a line feed, and no other.
fn is_whole(sheet: &[u8]) -> bool
    ensures { result ≡ whole sheet.now }
{
    sheet.len() >= LINE && !sheet[..15].contains(&b'\n') && sheet[15] == b'\n'
}

// Whether the columns beside the letter are blank.
fn is_spaced(line: &[u8]) -> bool
    requires { 16 ≤ length line.now }
    ensures { result ≡ spaced_in line.now }
{
    line[4] == b' ' && line[6] == b' '
}

// Cuts the first line of what remains of a sheet into its fields; `None` at the end.
pub fn cut(sheet: &[u8]) -> Result<Option<Fields<'_>>, LineRefusal>
    ensures { viewed_cut result ≡ cut_of sheet.now }
{
    if sheet.is_empty() {
        return Ok(None);
    }
    if !is_whole(sheet) {
        return Err(LineRefusal::Shape);
    }
    Ok(Some(Fields {
        cue: field_at(1, &sheet[0..4]),
        letter: field_at(6, &sheet[5..6]),
        item: field_at(8, &sheet[7..15]),
        spaced: is_spaced(sheet),
    }))
}

// That the first line of a sheet is cut into the fields of columns 1 to 4, of column 6 and of
// columns 8 to 15, each with its column, its bytes and the case that says what stands after its
// blanks; that it is spaced exactly when columns 5 and 7 are blank; and that what is no line is
// refused, unless nothing remains.
pub fn cut_is_told()
    ensures { CutIsTold }
{}
