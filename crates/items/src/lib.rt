// What cues read and write: the trait of a kind of item, and the two kinds.
#![tactic(auto)]

ghost use Rattle.std.specs.Prelude.{◌≡◌, ◌==◌, ℕ, ◌+◌, ◌-◌, ◌%◌, ◌≤◌, Bool, true, List, map, length, if◌then◌else◌, Some, None, decimal, Option};
ghost use Rattle.std.proofs.Common.{sym, ap, subst, ◌∙◌, arith, rules};
ghost use Rattle.items.specs.Fields.{Eight, Reads};
ghost use Rattle.lists.specs.Lists.{every};
ghost use Rattle.items.specs.Kinds.{axis_alike, axis_text, axis_in, mark_alike, mark_text, mark_in, axis_number, letters, words, is_word};
ghost use Rattle.items.specs.Words.{folded, letter_value, letter_of, word_from};
ghost use Rattle.columns.specs.Symbols.{is_letter};
ghost use Rattle.columns.proofs.Blanks.{length_justified, justified_after_blanks};
ghost use Rattle.columns.proofs.Unbroken.{number_in_unbroken, justified_unbroken, letters_unbroken};
ghost use Rattle.std.specs.Option.{option_map};
ghost use Rattle.std.proofs.lemmas.Bool.{eq-eqb};
ghost use Rattle.columns.specs.Columns.{up_to, number_in, after_blanks, justified};
ghost use Rattle.columns.proofs.Numbers.{number_number_in, up_to_within, up_to_some, number_in_number, some_where};
ghost use Rattle.items.specs.declared.Axis.{Axis};
ghost use Rattle.columns.specs.Columns;
ghost use Rattle.items.specs.AxisExactLemmas.{axis_of};
ghost use Rattle.items.specs.FieldsLemmas.{equal_self, equal_sym, equal_trans, eq_equal};
ghost use Rattle.items.specs.WordsLemmas.{word_letters, word_length, word_some, word_from_word, after_word, word_from_some, word_from_most, word_of_word_from};
ghost use Rattle.items.specs.declared.Mark.{Mark};
ghost use Rattle.items.specs.Words;
ghost use Rattle.items.specs.Marks.{Word, mark_in_lem, word_parts};
ghost use Rattle.items.specs.ItemsAreTexts.{AxesAreTheirTexts, CaseIsIgnored};
ghost use Rattle.items.specs.ItemsAreTexts.{LettersAreNumbered, MarksAreWords};
ghost use Rattle.items.specs.ItemsAreTexts.{MarksAreTheirTexts};

use columns::{after_blanks, read_number, write_number};

// A kind of item. What is the same, what eight bytes say and how an item is written depend on the inputs alone.
pub trait Item: Copy {
    ghost alike: { Self → Self → Bool };

    ghost text: { Self → List ℕ };

    ghost parsed: { List ℕ → Option Self };

    fn same(self, other: Self) -> bool
        ensures { result ≡ alike self other };

    fn read(field: &[u8; 8]) -> Option<Self>
        ensures { result ≡ parsed field.now };

    fn write(self, field: &mut [u8; 8])
        ensures { field.new ≡ text self };

    ghost reflexive: { (a : Self) → alike a a ≡ true };

    ghost symmetric: { (a b : Self) → alike a b ≡ true → alike b a ≡ true };

    ghost transitive: { (a b c : Self) → alike a b ≡ true → alike b c ≡ true → alike a c ≡ true };

    ghost eight: { (a : Self) → Eight (text a) };

    ghost back: { (a : Self) → Reads (alike a) (parsed (text a)) };
}

// A kind of which each item is read from one text only.
pub trait Exact: Item {
    ghost exact: { (bs : List ℕ) (a : Self) → length bs ≡ 8 → Self.Item.parsed bs ≡ Some a → Self.Item.text a ≡ bs };
}

// A machine axis: a number from 0 to 65535.
#[derive(Clone, Copy, PartialEq, Eq, Debug)]
pub struct Axis {
    pub number: u16,
}

impl Item for Axis {
    ghost alike = { axis_alike };

    ghost text = { axis_text };

    ghost parsed = { axis_in };

    ghost reflexive = { Prim.search rules };

    ghost symmetric = { Prim.search rules };

    ghost transitive = { Prim.search rules };

    ghost eight = { λ a.
        let n = axis_number a in
        record { eight = length_justified 8 (decimal n); unbroken = number_in_unbroken 8 n (omega arith) (omega arith) (omega arith) } };

    ghost back = { λ a.
        let n = axis_number a in
        let of : ℕ → Axis = λ m. record { number = m } in
        let e : axis_in (axis_text a) ≡ Some (of n) =
        ap (λ (o : Option ℕ). option_map of (up_to 65535 o)) (number_number_in 8 n (omega arith) (omega arith) (omega arith))
        ∙ ap (option_map of) (up_to_within 65535 n (omega arith)) in
        subst (Reads (axis_alike a)) (sym e) (eq-eqb n (n % 65536) (omega arith)) };

    fn same(self, other: Axis) -> bool {
        self == other
    }

    fn read(field: &[u8; 8]) -> Option<Axis> {
        read_number(field, 65535).map(|n| Axis { number: n as u16 })
    }

    fn write(self, field: &mut [u8; 8]) {
        write_number(u32::from(self.number), field);
    }
}

impl Exact for Axis {
    ghost exact = { λ bs a l e.
        let p = up_to_some 65535 (Columns.number bs) a.number (axis_of (up_to 65535 (Columns.number bs)) a e) in
        let same : axis_number a ≡ a.number = omega (arith, p.1) in
        ap (number_in 8) same ∙ ap (λ (w : ℕ). number_in w a.number) (sym l) ∙ number_in_number bs a.number p.0 (omega (arith, p.1)) };
}

// A mark: a word of 1 to 8 letters, by its number among all such words.
#[derive(Clone, Copy, Debug)]
pub struct Mark {
    pub number: u64,
}

// How many words have 1 to 8 letters.
const WORDS: u64 = 54_507_958_502_660;

impl Mark {
    // The number of its word, of which the first is 1. Marks are numbered from 0.
    fn word(self) -> u64
        ensures { result ≡ self.number % words + 1 }
    {
        self.number % WORDS + 1
    }
}

// What a letter stands for, 1 to 52, where the byte is one.
fn letter_value(byte: u8) -> Option<u8>
    ensures { result ≡ (if is_letter byte then Some (letter_value byte) else None) }
{
    match byte {
        b'A'..=b'Z' => Some(byte - b'A' + 1),
        b'a'..=b'z' => Some(byte - b'a' + 27),
        _ => None,
    }
}

// The letter that stands for a value.
fn letter(value: u8) -> u8
    requires { (1 ≤ value) × (value ≤ 52) }
    ensures { result ≡ letter_of value }
{
    match value {
        1..=26 => b'A' + (value - 1),
        _ => b'a' + (value - 27),
    }
}

// Whether two letters are the same, with case ignored.
fn same_letter(a: u8, b: u8) -> bool
    ensures { result ≡ (folded a == folded b) }
{
    a.eq_ignore_ascii_case(&b)
}

// The number of a word, where each byte is a letter. A loop with `?`: a fold that can fail is no plainer.
fn word_number(word: &[u8]) -> Option<u64>
    requires { length word.now ≤ 8 }
    ensures { result ≡ (if every is_letter word.now then Some (word_from 0 word.now) else None) }
{
    let mut number = 0u64;
    for byte in word {
        let value = letter_value(*byte)?;
        number = number * 52 + u64::from(value);
    }
    Some(number)
}

// Writes the word with a number into a field, right-justified after blanks.
fn write_word(n: u64, field: &mut [u8])
    ensures { field.new ≡ justified (length field.old) (Words.word (length field.old) n) }
{
    if n == 0 {
        field.fill(b' ');
    } else if let Some((last, front)) = field.split_last_mut() {
        *last = letter(((n - 1) % 52 + 1) as u8);
        write_word((n - 1) / 52, front);
    }
}

impl Item for Mark {
    ghost alike = { mark_alike };

    ghost text = { mark_text };

    ghost parsed = { mark_in };

    ghost reflexive = { λ a. equal_self (map folded (letters a)) };

    ghost symmetric = { λ a b. equal_sym (map folded (letters a)) (map folded (letters b)) };

    ghost transitive = { λ a b c. equal_trans (map folded (letters a)) (map folded (letters b)) (map folded (letters c)) };

    ghost eight = { λ a.
        let n = a.number % words + 1 in
        record {
          eight = length_justified 8 (letters a);
          unbroken = justified_unbroken 8 (letters a) (word_length 8 n) (letters_unbroken (letters a) (word_letters 8 n));
        } };

    ghost back = { λ a.
        let n : ℕ = a.number % words + 1 in
        let w : List ℕ = letters a in
        let b : Mark = record { number = n - 1 } in
        let is : Word w = record { some = word_some 8 n (omega arith) (omega arith); fits = word_length 8 n; all = word_letters 8 n } in
        let e : mark_in (mark_text a) ≡ Some b = mark_in_lem (mark_text a) w n (after_word 8 w is.all is.fits) is (word_from_word 8 n (omega arith)) in
        let same : n ≡ (n - 1) % words + 1 = omega arith in
        subst (Reads (mark_alike a)) (sym e) (eq_equal (map folded w) (map folded (letters b)) (ap (λ (m : ℕ). map folded (Words.word 8 m)) same)) };

    // From the last letters to the first, as two marks mostly differ there: comparing the written words took 4 to 6 times as long then.
    fn same(self, other: Mark) -> bool {
        let mut mine = self.word();
        let mut theirs = other.word();
        while mine > 0 && theirs > 0 {
            let last = letter(((mine - 1) % 52 + 1) as u8);
            let their_last = letter(((theirs - 1) % 52 + 1) as u8);
            if !same_letter(last, their_last) {
                return false;
            }
            mine = (mine - 1) / 52;
            theirs = (theirs - 1) / 52;
        }
        mine == theirs
    }

    fn read(field: &[u8; 8]) -> Option<Mark> {
        let word = after_blanks(field);
        if word.is_empty() {
            return None;
        }
        let number = word_number(word)?;
        Some(Mark { number: number - 1 })
    }

    fn write(self, field: &mut [u8; 8]) {
        write_word(self.word(), field);
    }
}

impl Exact for Mark {
    ghost exact = { λ bs a l e.
        let w = after_blanks bs in
        let p = some_where (is_word w) (record { number = word_from 0 w - 1 }) a e in
        let is = word_parts w p.0 in
        let low = word_from_some w is.some is.all in
        let high = word_from_most w 8 is.all is.fits in
        let same : a.number % words + 1 ≡ word_from 0 w = omega (arith, ap (λ (m : Mark). m.number) p.1) in
        ap (λ (n : ℕ). justified 8 (Words.word 8 n)) same
        ∙ ap (justified 8) (word_of_word_from w 8 is.all is.fits)
        ∙ ap (λ (n : ℕ). justified n w) (sym l)
        ∙ justified_after_blanks bs };
}

// That two axes are the same exactly when they are written the same, and two marks exactly when they
// are written the same with the case of letters ignored; that eight columns are read as an item
// exactly when they are what is written of it; that each number from 0 to 65535 is an axis of its
// own, and each word of 1 to 8 letters that of exactly one mark, in the order of the words.
pub fn items_are_their_texts()
    ensures axes { AxesAreTheirTexts }
    ensures cases { CaseIsIgnored }
    ensures letters { LettersAreNumbered }
    ensures words { MarksAreWords }
    ensures marks { MarksAreTheirTexts }
{}
