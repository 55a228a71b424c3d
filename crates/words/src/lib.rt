// What programs read and print alike: items as single words, as scripts and sample books say them, and rows of numbers.
#![tactic(auto)]

ghost use Rattle.std.specs.Prelude.{◌≡◌, Some};
ghost use Rattle.words.specs.Words.{item_in, spaced};
ghost use Rattle.words.specs.WordsAreTold.{WordIsTold, SpacedIsTold};

use items::Item;
use std::fmt;

// The item that a word says: the kind reads it as it stands in a sheet, right-justified in eight columns.
pub fn item_of<K: Item>(word: &str) -> Option<K>
    ensures { result ≡ item_in K.Item.parsed word.now }
{
    let mut field = [b' '; 8];
    let first = field.len().checked_sub(word.len())?;
    field[first..].copy_from_slice(word.as_bytes());
    K::read(&field)
}

// Numbers with a blank before each.
#[derive(Clone, Copy)]
pub struct Spaced<'a>(pub &'a [u32]);

impl fmt::Display for Spaced<'_> {
    ghost output = { λ s. Some (spaced s.0.now) };

    fn fmt<W: fmt::Write>(&self, f: &mut fmt::Formatter<W>) -> fmt::Result {
        for number in self.0 {
            write!(f, " {number}")?;
        }
        Ok(())
    }
}

// That the item of a word is the item of the columns in which the word stands, right-justified, and
// that there is none exactly where the word is longer or they hold none; and that numbers in print
// are cut at their blanks into the numbers.
pub fn words_are_told<K: Item>()
    ensures item { WordIsTold K.Item.parsed }
    ensures numbers { SpacedIsTold }
{}
