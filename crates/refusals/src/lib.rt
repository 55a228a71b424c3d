// Why a call is refused, and the number that each refusal is known by.
#![tactic(auto)]

ghost use Rattle.std.specs.Prelude.{◌≡◌, Some};
ghost use Rattle.refusals.specs.declared.Layer.TheVariants.{Line, Book};
ghost use Rattle.refusals.specs.Numbers.{number_of, line_number_of, layer_number_of};
ghost use Rattle.refusals.specs.Words.{line_words_of, words_of, layer_words_of};

use std::fmt;

// Why a line of a sheet is not read.
#[derive(Clone, Copy, PartialEq, Eq, Debug)]
pub enum LineRefusal {
    // Too few bytes remain, or the line feed is not the line's last byte.
    Shape = 1,
    // The cue field holds no number.
    CueField = 2,
    // Column 6 holds none of the letters, or a column beside it is not blank.
    Letter = 3,
    // The item field cannot be read, or should be blank and is not.
    ItemField = 4,
}

impl LineRefusal {
    pub fn number(self) -> u32
        ensures { result ≡ line_number_of self }
    {
        self as u32
    }
}

// Why a call is refused. A refused call writes nothing.
#[derive(Clone, Copy, PartialEq, Eq, Debug)]
pub enum Refusal {
    // The cue number is outside 1 to 64.
    NoSuchCue = 11,
    // The cue has a commit or an abort.
    CueEnded = 12,
    // The book has no free place.
    BookFull = 13,
    // The cue has an entry.
    CueEntered = 14,
    // The list for the answer is shorter than the number of cues, or of winches, that it may have to hold.
    ListShort = 21,
    // The strip of working memory is shorter than 64 bytes.
    StripShort = 22,
    // More than 8 cues are committed.
    ManyCues = 23,
    // A cue number is outside 1 to 64, or the two are equal.
    CuePair = 24,
    // The space for the report is shorter than 388 bytes.
    ReportShort = 25,
    // The space for a written line is shorter than 16 bytes.
    SpaceShort = 26,
    // A row of a wait list has a number outside 1 to 64.
    NoSuchWinch = 31,
}

impl Refusal {
    // Not shared with `LineRefusal`: a cast takes an enum, and no type parameter.
    pub fn number(self) -> u32
        ensures { result ≡ number_of self }
    {
        self as u32
    }
}

// Which layer refused a line, with its refusal whole: the line format, or the call that takes the line's entry.
#[derive(Clone, Copy, PartialEq, Eq, Debug)]
pub enum Layer {
    Line(LineRefusal),
    Book(Refusal),
}

impl Layer {
    pub fn number(self) -> u32
        ensures { result ≡ layer_number_of self }
    {
        match self {
            Layer::Line(refusal) => refusal.number(),
            Layer::Book(refusal) => refusal.number(),
        }
    }
}

impl From<LineRefusal> for Layer {
    ghost from_gives = { λ f r. r ≡ Line f };

    fn from(refusal: LineRefusal) -> Layer {
        Layer::Line(refusal)
    }
}

impl From<Refusal> for Layer {
    ghost from_gives = { λ f r. r ≡ Book f };

    fn from(refusal: Refusal) -> Layer {
        Layer::Book(refusal)
    }
}

impl fmt::Display for LineRefusal {
    ghost output = { λ f. Some (line_words_of f) };

    fn fmt<W: fmt::Write>(&self, f: &mut fmt::Formatter<W>) -> fmt::Result {
        f.write_str(match self {
            LineRefusal::Shape => "the line has not 15 columns",
            LineRefusal::CueField => "columns 1 to 4 hold no number",
            LineRefusal::Letter => {
                "column 6 holds none of r, w, c, a, or a column beside it is not blank"
            }
            LineRefusal::ItemField => "columns 8 to 15 do not hold what the letter asks for",
        })
    }
}

impl fmt::Display for Refusal {
    ghost output = { λ f. Some (words_of f) };

    fn fmt<W: fmt::Write>(&self, f: &mut fmt::Formatter<W>) -> fmt::Result {
        f.write_str(match self {
            Refusal::NoSuchCue => "the cue number is outside 1 to 64",
            Refusal::CueEnded => "the cue has ended",
            Refusal::BookFull => "the book is full",
            Refusal::CueEntered => "the cue has an entry",
            Refusal::ListShort => "the list for the answer is too short",
            Refusal::StripShort => "the working memory is too short",
            Refusal::ManyCues => "more than 8 cues are committed",
            Refusal::CuePair => "a cue number is outside 1 to 64, or the two are equal",
            Refusal::ReportShort => "the space for the report is too short",
            Refusal::SpaceShort => "the space for the line is too short",
            Refusal::NoSuchWinch => "a winch number is outside 1 to 64",
        })
    }
}

// The words of the refusal, whichever layer it comes from.
impl fmt::Display for Layer {
    ghost output = { λ f. Some (layer_words_of f) };

    fn fmt<W: fmt::Write>(&self, f: &mut fmt::Formatter<W>) -> fmt::Result {
        match self {
            Layer::Line(refusal) => refusal.fmt(f),
            Layer::Book(refusal) => refusal.fmt(f),
        }
    }
}
