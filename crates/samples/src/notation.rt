// Entries in the textbook's notation: a letter, the cue, and in brackets the item.
use history::{Act, Entry};
use items::Item;
use words::item_of;

// The entry that a word says, as w1(5).
pub fn entry_of<K: Item>(word: &str) -> Option<Entry<K>> {
    let mut symbols = word.chars();
    let letter = symbols.next()?;
    let rest = symbols.as_str();
    let (cue, item) = rest.split_once('(').unwrap_or((rest, ""));
    let item = item.trim_end_matches(')');
    let act = match letter {
        'r' => Act::Read(item_of(item)?),
        'w' => Act::Write(item_of(item)?),
        'c' => Act::Commit,
        'a' => Act::Abort,
        _ => return None,
    };
    Some(Entry {
        cue: cue.parse::<u32>().ok()?,
        act,
    })
}
