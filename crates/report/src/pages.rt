// A page: the text of a report as far as it is written. It is an array with a length, since nothing is allocated.
ghost use Rattle.std.specs.Prelude.{◌≡◌, ◌+◌, ◌*◌, ◌≤◌, [], ◌++◌, length};
ghost use Rattle.report.specs.Text.{line};

use columns::write_number;
use std::marker::Model;

// How many bytes a page holds: no report has more.
pub const LONGEST: usize = 388;

#[derive(Drop)]
pub struct Page {
    bytes: [u8; LONGEST],
    len: usize,
}

impl Model for Page {
    ghost use Rattle.std.specs.Prelude.{ℕ, ◌≤◌, List, take};

    ghost Value = { List ℕ };

    ghost view = { λ p. take p.len p.bytes };

    ghost invariant = { λ p. p.len ≤ 388 };
}

impl Page {
    // A new page has no text.
    pub fn new() -> Page
        ensures { result ≡ [] }
    {
        Page {
            bytes: [0; LONGEST],
            len: 0,
        }
    }

    // What is written.
    pub fn text(&self) -> &[u8]
        ensures text { result.now ≡ self.now }
        ensures short { length result.now ≤ 388 }
    {
        &self.bytes[..self.len]
    }

    // Writes bytes after the text. Their room stands in each clause, since a page cannot know which lines are still to come.
    fn put(&mut self, bytes: &[u8])
        requires { length self.old + length bytes.now ≤ 388 }
        ensures { self.new ≡ self.old ++ bytes.now }
    {
        let end = self.len + bytes.len();
        self.bytes[self.len..end].copy_from_slice(bytes);
        self.len = end;
    }

    // Writes a line: the word, and each number right-justified in five columns.
    pub fn line(&mut self, word: &[u8; 5], numbers: &[u32])
        requires { length self.old + (5 * length numbers.now + 6) ≤ 388 }
        ensures { self.new ≡ self.old ++ line word.now numbers.now }
    {
        self.put(word);
        for n in numbers {
            let mut field = [0u8; 5];
            write_number(*n, &mut field);
            self.put(&field);
        }
        self.put(b"\n");
    }
}
