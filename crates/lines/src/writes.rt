// Writing a line: the 16 bytes that say an entry.
ghost use Rattle.std.specs.Prelude.{◌≡◌, ◌+◌, ◌≤◌, true, ◌++◌, length, take, drop};
ghost use Rattle.std.specs.Prelude.{is_ok, IfOk, IfSome};
ghost use Rattle.lines.specs.Writing.{letter_of, item_of, line_written, space_after};
ghost use Rattle.lines.specs.Writing.{ReadsBack, WritesBack, copied, space_copied};
ghost use Rattle.lines.specs.Writing.{rewritten, space_rewritten};
ghost use Rattle.lines.specs.WritingIsTold.{WritingIsTold, RewritingIsTold};

use crate::LINE;
use crate::reads::read_line;
use columns::write_number;
use history::{Act, Entry, is_cue};
use items::{Exact, Item};
use refusals::{Layer, Refusal};

// The letter of an act.
fn letter_of<K>(act: &Act<K>) -> u8
    ensures { result ≡ letter_of act.now }
{
    match act {
        Act::Read(_) => b'r',
        Act::Write(_) => b'w',
        Act::Commit => b'c',
        Act::Abort => b'a',
    }
}

// The item field of an act: blank where it has no item.
fn item_of<K: Item>(act: &Act<K>) -> [u8; 8]
    ensures { result ≡ item_of K.Item.text act.now }
{
    let mut field = [b' '; 8];
    match act {
        Act::Read(item) | Act::Write(item) => item.write(&mut field),
        Act::Commit | Act::Abort => {}
    }
    field
}

// Copies bytes into a space, from a place on.
fn put(space: &mut [u8], at: usize, bytes: &[u8])
    requires { at + length bytes.now ≤ length space.old }
    ensures { space.new ≡ take at space.old ++
        (bytes.now ++ drop (at + length bytes.now) space.old) }
{
    space[at..at + bytes.len()].copy_from_slice(bytes);
}

// Writes an entry as a line into the first 16 bytes of a space, or refuses and writes nothing.
pub fn write_line<K: Item>(entry: &Entry<K>, space: &mut [u8]) -> Result<(), Refusal>
    ensures answer { result ≡ line_written entry.now (length space.old) }
    ensures space { space.new ≡ space_after K.Item.text entry.now result space.old }
    ensures back { is_ok result ≡ true →
        ReadsBack K.Item.alike K.Item.parsed space.new entry.now }
{
    if !is_cue(entry.cue) {
        return Err(Refusal::NoSuchCue);
    }
    if space.len() < LINE {
        return Err(Refusal::SpaceShort);
    }
    let mut cue = [b' '; 4];
    write_number(entry.cue, &mut cue);
    put(space, 0, &cue);
    put(space, 4, &[b' ', letter_of(&entry.act), b' ']);
    put(space, 7, &item_of(&entry.act));
    put(space, 15, b"\n");
    Ok(())
}

// Reads the first line of a sheet and writes its entry into a space, as a line in the form that
// the kind writes; answers the entry, or `None` at the sheet's end, where nothing is written.
// Refused by 1 to 4 as reading, by 11 for the cue number, by 26 for a space of fewer than 16
// bytes; then nothing is written.
pub fn rewrite_line<K: Item>(sheet: &[u8], space: &mut [u8]) -> Result<Option<Entry<K>>, Layer>
    ensures answer { result ≡ rewritten K.Item.parsed sheet.now (length space.old) }
    ensures space { space.new ≡ space_rewritten K.Item.text result space.old }
    // What was written is read as an entry that is the same.
    ensures back { IfOk result (λ found.
        IfSome found (ReadsBack K.Item.alike K.Item.parsed space.new)) }
{
    match read_line::<K>(sheet)? {
        None => Ok(None),
        Some(entry) => {
            write_line(&entry, space)?;
            Ok(Some(entry))
        }
    }
}

// Reads the first line of a sheet and writes it into a space, byte for byte as it stood; answers
// `false` at the sheet's end, where there is no line to copy. Refused as `rewrite_line` is.
pub fn copy_line<K: Exact>(sheet: &[u8], space: &mut [u8]) -> Result<bool, Layer>
    ensures answer { result ≡ copied K.Item.parsed sheet.now (length space.old) }
    ensures space { space.new ≡ space_copied result sheet.now space.old }
    // What stands there is the line that is written of the entry.
    ensures written { space.new ≡ space_rewritten K.Item.text
        (rewritten K.Item.parsed sheet.now (length space.old)) space.old }
{
    Ok(rewrite_line::<K>(sheet, space)?.is_some())
}

// That sixteen bytes which are read as an entry are the bytes of the line that is written of it.
pub fn line_writes_back<K: Exact>()
    ensures { WritesBack K.Item.parsed K.Item.text }
{}

// That an entry is refused for its cue, outside 1 to 64, or else for a space of fewer than 16
// bytes; that its line has the cue in columns 1 to 4, the act's letter in column 6, between blanks,
// the item in columns 8 to 15 and then a line feed; that this line is left in the first 16 bytes of
// the space and nothing else is changed there; and that lines are rewritten and copied accordingly.
pub fn writing_is_told<K: Item>()
    ensures writing { WritingIsTold K.Item.text }
    ensures rewriting { RewritingIsTold K.Item.parsed K.Item.text }
{}
