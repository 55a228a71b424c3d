// A history: the entries of a book in their order, and what they say of a cue.
#![tactic(auto)]

ghost use Rattle.std.specs.Prelude.{◌≡◌, ℕ, true};
ghost use Rattle.history.specs.Conflicts.{conflict, writes};
ghost use Rattle.history.specs.Cues.{CueIsTold, EndingIsTold};
ghost use Rattle.history.specs.Endings.{act_of};
ghost use Rattle.history.specs.Entries.{is_cue, is_commit, is_abort, ends, acted, committed, ended, opened};
ghost use Rattle.history.specs.Marked.{marked};
ghost use Rattle.history.specs.Order.{KeepsIsKeepsConflicts};

use items::Item;

// What a cue does: reads or writes an item, commits, or aborts.
#[derive(Clone, Copy)]
pub enum Act<K> {
    Read(K),
    Write(K),
    Commit,
    Abort,
}

impl<K> Act<K> {
    // Whether it is a commit.
    pub fn is_commit(&self) -> bool
        ensures { result ≡ is_commit self.now }
    {
        matches!(self, Act::Commit)
    }

    // Whether it is an abort.
    pub fn is_abort(&self) -> bool
        ensures { result ≡ is_abort self.now }
    {
        matches!(self, Act::Abort)
    }

    // Whether it is a commit or an abort.
    pub fn is_ending(&self) -> bool
        ensures { result ≡ ends self.now }
    {
        matches!(self, Act::Commit | Act::Abort)
    }
}

// How a cue ends.
#[derive(Clone, Copy, PartialEq, Eq, Debug)]
pub enum Ending {
    Commit,
    Abort,
}

// The act that ends a cue so.
impl<K> From<Ending> for Act<K> {
    ghost from_gives = { λ f r. r ≡ act_of f };

    fn from(ending: Ending) -> Act<K> {
        match ending {
            Ending::Commit => Act::Commit,
            Ending::Abort => Act::Abort,
        }
    }
}

// One entry of a book: the act of a cue.
#[derive(Clone, Copy)]
pub struct Entry<K> {
    pub cue: u32,
    pub act: Act<K>,
}

impl<K> Entry<K> {
    // What stands in memory where no entry has been accepted yet.
    pub const FREE: Entry<K> = Entry {
        cue: 0,
        act: Act::Abort,
    };
}

// Whether a number can be a cue's.
pub fn is_cue(n: u32) -> bool
    ensures { result ≡ is_cue n }
{
    (1..=64).contains(&n)
}

// Whether the cue has an entry. This and the next two are chains of their own: over a test that is handed in, a chain leaves its
// goal open.
pub fn has_acted<K>(entries: &[Entry<K>], cue: u32) -> bool
    ensures { result ≡ acted (λ a. true) entries.now cue }
{
    is_cue(cue) && entries.iter().any(|e| e.cue == cue)
}

// Whether the cue has a commit.
pub fn is_committed<K>(entries: &[Entry<K>], cue: u32) -> bool
    ensures { result ≡ committed entries.now cue }
{
    is_cue(cue) && entries.iter().any(|e| e.cue == cue && e.act.is_commit())
}

// Whether the cue has a commit or an abort.
pub fn has_ended<K>(entries: &[Entry<K>], cue: u32) -> bool
    ensures { result ≡ ended entries.now cue }
{
    is_cue(cue) && entries.iter().any(|e| e.cue == cue && e.act.is_ending())
}

// Whether the cue has an entry and has not ended.
pub fn is_open<K>(entries: &[Entry<K>], cue: u32) -> bool
    ensures { result ≡ opened entries.now cue }
{
    has_acted(entries, cue) && !has_ended(entries, cue)
}

// Whether the table has the cue. A table is a plain array, since any of them is a set of cues.
pub fn is_marked(cues: &[bool; 64], n: u32) -> bool
    ensures { result ≡ marked cues.now n }
{
    is_cue(n) && cues[n as usize - 1]
}

// Which cues are committed.
pub fn committed_cues<K>(entries: &[Entry<K>]) -> [bool; 64]
    ensures { (n : ℕ) → marked result n ≡ committed entries.now n }
{
    let mut cues = [false; 64];
    for e in entries {
        if is_cue(e.cue) && e.act.is_commit() {
            cues[e.cue as usize - 1] = true;
        }
    }
    cues
}

// Whether the act writes an item that is the same as `item`.
pub fn writes_item<K: Item>(act: &Act<K>, item: K) -> bool
    ensures { result ≡ writes (K.Item.alike item) act.now }
{
    matches!(act, Act::Write(other) if item.same(*other))
}

// Whether two entries conflict: they are of different cues, their items are the same, and one of them is a write.
pub fn conflicts<K: Item>(x: &Entry<K>, y: &Entry<K>) -> bool
    ensures { result ≡ conflict K.Item.alike x.now y.now }
{
    if x.cue == y.cue {
        return false;
    }
    match (&x.act, &y.act) {
        (Act::Read(a), Act::Write(b)) | (Act::Write(a), Act::Read(b) | Act::Write(b)) => {
            a.same(*b)
        }
        _ => false,
    }
}

// That an order passes the test `keeps` exactly when, for each two places of conflicting entries of
// committed cues, it has the cue of the earlier entry before that of the later one.
pub fn keeps_stands<K>()
    ensures { KeepsIsKeepsConflicts K }
{}

// That the tests of a number say what its entries say, whichever number it is. It is a cue from 1
// to 64. It has an entry, a commit, an abort, an ending exactly when such an entry stands at some
// place. It is open when it has an entry and no ending. A table has it when its cell is set, and
// it is listed as committed, in rising order, when it has a commit. And that a commit and an abort
// end a cue, no other act does, and each is the act of the ending of its name.
pub fn cue_is_told<K>()
    ensures cue { CueIsTold K }
    ensures ending { EndingIsTold K }
{}
