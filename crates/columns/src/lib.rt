// Fields of fixed columns: what stands after leading blanks, and decimal numbers.
#![tactic(auto)]

ghost use Rattle.std.specs.Prelude.{◌≡◌, ◌≤◌, ◌==◌, length};
ghost use Rattle.std.specs.List.{prefix_len};
ghost use Rattle.lists.specs.Lists.{every};
ghost use Rattle.columns.specs.Symbols.{is};
ghost use Rattle.columns.specs.Columns.{after_blanks, digits_from, number, up_to, number_in};
ghost use Rattle.columns.specs.NumbersAreTexts.{DigitsAndLetters, TextsAreJustified};
ghost use Rattle.columns.specs.NumbersAreTexts.{NumbersAreTheirTexts};

// The two tests of a byte that fields and their definitions share: an enum and no closure, since the definitions name them too.
#[derive(Clone, Copy)]
pub enum Symbol {
    Digit,
    Letter,
}

impl Symbol {
    pub fn is(self, b: u8) -> bool
        ensures { result ≡ is self b }
    {
        match self {
            Symbol::Digit => b.is_ascii_digit(),
            Symbol::Letter => b.is_ascii_alphabetic(),
        }
    }

    // Whether each byte is such a symbol.
    pub fn fills(self, bytes: &[u8]) -> bool
        ensures { result ≡ every (is self) bytes.now }
    {
        bytes.iter().all(|b| self.is(*b))
    }
}

// How many blanks lead a field.
fn leading_blanks(field: &[u8]) -> usize
    ensures count { result ≡ prefix_len (λ b. b == 32) field.now }
    ensures within { result ≤ length field.now }
{
    field.iter().take_while(|b| **b == b' ').count()
}

// The part of a field after its leading blanks.
pub fn after_blanks(field: &[u8]) -> &[u8]
    ensures { result.now ≡ after_blanks field.now }
{
    &field[leading_blanks(field)..]
}

// The number that digits stand for, where it is not above `most`. By hand, since the library's `parse` takes a leading plus too.
fn value(digits: &[u8], most: u32) -> Option<u32>
    ensures { result ≡ up_to most (digits_from 0 digits.now) }
{
    let mut n = 0u64;
    for b in digits {
        if !b.is_ascii_digit() {
            return None;
        }
        n = n * 10 + u64::from(*b - b'0');
        if n > u64::from(most) {
            return None;
        }
    }
    Some(n as u32)
}

// The number that a field holds, right-justified after blanks, where it is not above `most`.
pub fn read_number(field: &[u8], most: u32) -> Option<u32>
    ensures { result ≡ up_to most (number field.now) }
{
    match after_blanks(field) {
        [] => None,
        [b'0', _, ..] => None,
        digits => value(digits, most),
    }
}

// Writes a number into a field, right-justified after blanks: its last digits where the field is too short for all.
// By hand, since the library writes all digits of a number and not the last that fit.
pub fn write_number(n: u32, field: &mut [u8])
    ensures { field.new ≡ number_in (length field.old) n }
{
    if let Some((last, front)) = field.split_last_mut() {
        *last = b'0' + (n % 10) as u8;
        if n < 10 {
            front.fill(b' ');
        } else {
            write_number(n / 10, front);
        }
    }
}

// That a field holds a number exactly when it is blanks and then the number as it is written, that
// texts are written right-justified, and which bytes are digits and letters.
pub fn numbers_are_their_texts()
    ensures symbols { DigitsAndLetters }
    ensures texts { TextsAreJustified }
    ensures numbers { NumbersAreTheirTexts }
{}
