// Histories as they are written by hand: who does what, step by step.
use book::Book;
use history::{Act, Entry};
use items::Axis;

// A cue and what it does.
pub type Turn = (u32, Act<Axis>);

// The items of the histories, one for each letter.
pub const X: Axis = Axis { number: 1 };

pub const Y: Axis = Axis { number: 2 };

pub const Z: Axis = Axis { number: 3 };

pub const U: Axis = Axis { number: 4 };

// A book of the turns, as many of them as are accepted.
pub fn book_of<'a>(memory: &'a mut [Entry<Axis>], turns: &[Turn]) -> Book<'a, Axis> {
    let mut book = Book::new(memory);
    for (cue, act) in turns {
        let _ = book.enter(Entry {
            cue: *cue,
            act: *act,
        });
    }
    book
}
