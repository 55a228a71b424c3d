// The calls that the words of a script say.
use crate::faults::{Expected, Fault, Unread};
use crate::kinds::Kind;
use crate::scripts::Said;
use book::Step;
use history::{Act, Ending, Entry};
use runs::Call;
use std::alloc::Global;
use std::str::{FromStr, SplitWhitespace};
use words::item_of;

// The length of a list or strip of which the script does not say how long it is.
const LENT: usize = 64;

fn number<T: FromStr>(word: &str, expected: Expected) -> Result<T, Expected>
where
    T::Err: Drop,
{
    word.parse::<T>().ok().ok_or(expected)
}

// Reads the next word as a number. Whether there is such a cue or ticket is for the book to say.
fn next_number<T: FromStr>(
    words: &mut SplitWhitespace<'_>,
    expected: Expected,
) -> Result<T, Expected>
where
    T::Err: Drop,
{
    number(words.next().ok_or(expected)?, expected)
}

// Reads the next word as a length, if there is one. Whether that is long enough is for the book
// to say.
fn next_length(words: &mut SplitWhitespace<'_>, expected: Expected) -> Result<usize, Expected> {
    match words.next() {
        Some(word) => number(word, expected),
        None => Ok(LENT),
    }
}

fn next_cue(words: &mut SplitWhitespace<'_>) -> Result<u32, Expected> {
    next_number(words, Expected::Cue)
}

fn next_ticket(words: &mut SplitWhitespace<'_>) -> Result<usize, Expected> {
    next_number(words, Expected::Ticket)
}

fn next_cells(words: &mut SplitWhitespace<'_>) -> Result<usize, Expected> {
    next_length(words, Expected::Cells)
}

fn next_bytes(words: &mut SplitWhitespace<'_>) -> Result<usize, Expected> {
    next_length(words, Expected::Bytes)
}

fn next_item<K: Kind>(words: &mut SplitWhitespace<'_>) -> Result<K, Expected> {
    let expected = Expected::Item(K::ITEM);
    item_of(words.next().ok_or(expected)?).ok_or(expected)
}

// The ending that a letter says.
fn ending(letter: &str) -> Option<Ending> {
    match letter {
        "c" => Some(Ending::Commit),
        "a" => Some(Ending::Abort),
        _ => None,
    }
}

// The step that a letter begins, with the next word as its item.
fn step<K: Kind>(
    letter: &str,
    words: &mut SplitWhitespace<'_>,
) -> Result<Option<Step<K>>, Expected> {
    match letter {
        "r" => Ok(Some(Step::Read(next_item(words)?))),
        "w" => Ok(Some(Step::Write(next_item(words)?))),
        _ => Ok(None),
    }
}

fn next_ending(words: &mut SplitWhitespace<'_>) -> Result<Ending, Expected> {
    let letter = words.next().ok_or(Expected::Ending)?;
    ending(letter).ok_or(Expected::Ending)
}

fn next_step<K: Kind>(words: &mut SplitWhitespace<'_>) -> Result<Step<K>, Expected> {
    let letter = words.next().ok_or(Expected::Step)?;
    step(letter, words)?.ok_or(Expected::Step)
}

fn next_act<K: Kind>(words: &mut SplitWhitespace<'_>) -> Result<Act<K>, Expected> {
    let letter = words.next().ok_or(Expected::Act)?;
    if let Some(ending) = ending(letter) {
        return Ok(Act::from(ending));
    }
    let step = step(letter, words)?.ok_or(Expected::Act)?;
    Ok(Act::from(step))
}

// Why a first word begins no call.
fn no_call(first: &str) -> Expected {
    if first.starts_with('|') {
        Expected::Sheet
    } else {
        Expected::Call
    }
}

// Reads a call up to its last word.
fn next_call<'a, K: Kind>(
    words: &mut SplitWhitespace<'_>,
    sheet: &'a [u8],
) -> Result<Call<'a, K>, Expected> {
    let first = words.next().ok_or(Expected::Call)?;
    match first {
        "enter" => Ok(Call::Enter(Entry {
            cue: next_cue(words)?,
            act: next_act(words)?,
        })),
        "sheet" => Ok(Call::ReadIn(sheet)),
        "begin" => Ok(Call::Begin(next_cue(words)?)),
        "record" => Ok(Call::Record(next_ticket(words)?, next_step(words)?)),
        "end" => Ok(Call::End(next_ticket(words)?, next_ending(words)?)),
        "class" => Ok(Call::Class),
        "order" => Ok(Call::Order(next_cells(words)?, next_bytes(words)?)),
        "views" => Ok(Call::Views(next_cells(words)?)),
        "why" => Ok(Call::Why(next_cue(words)?, next_cue(words)?)),
        _ => Err(no_call(first)),
    }
}

// Reads the whole of a call.
fn whole_call<'a, K: Kind>(said: &'a Said<'_>) -> Result<Call<'a, K>, Expected> {
    let mut words = said.words.split_whitespace();
    let call = next_call(&mut words, said.sheet.as_slice())?;
    match words.next() {
        None => Ok(call),
        Some(_) => Err(Expected::End),
    }
}

fn call_of<'a, K: Kind>(said: &'a Said<'_>) -> Result<Call<'a, K>, Fault> {
    whole_call(said).map_err(|expected| Fault {
        line: said.line,
        expected,
    })
}

// Reads the calls in turn, up to the first that cannot be read.
pub fn read_calls<'a, K: Kind>(
    heap: Global,
    said: &'a [Said<'_>],
) -> Result<Vec<Call<'a, K>>, Unread> {
    let mut calls = Vec::new(heap);
    for one in said {
        calls.push(call_of(one)?)?;
    }
    Ok(calls)
}
