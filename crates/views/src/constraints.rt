// What a view-equivalent order must keep, derived from the book once.
ghost use Rattle.std.specs.Prelude.{◌≡◌, ℕ};
ghost use Rattle.history.specs.Entries.{committed};
ghost use Rattle.history.specs.Marked.{marked};
ghost use Rattle.equivalence.specs.Constraints.{sets, writer, last_writer};
ghost use Rattle.views.specs.Noted.{Member, Within, other, PutsAhead, PutsApart, PutsFirst, third, PutsBetween, AskedRead, AskedWrite};
ghost use Rattle.views.specs.Tables.{ahead_in, apart_in, Asked, Derived};

use crate::members::Members;
use history::{Act, Entry, is_marked, writes_item};
use items::Item;

// The constraints between the members, told by their ranks. Both tables are flat, so that one number finds a
// cell of either: of `apart` the checker does not cover the nested form, three arrays in each other.
#[derive(Clone, Copy)]
pub struct Constraints {
    pub members: Members,
    // Whether one cue must come before another.
    ahead: [bool; 64],
    // Whether a cue must not stand between two.
    apart: [bool; 512],
}

// The cues that write an item in a part of the book, and the last of them.
#[derive(Clone, Copy)]
struct Writers {
    cues: [bool; 64],
    last: Option<u32>,
}

impl Members {
    // Whether the entry is a write of the item by one of the cues.
    fn sets<K: Item>(&self, w: &Entry<K>, item: K) -> bool
        ensures { result ≡ sets K.Item.alike (marked self.now.cues) item w.now }
    {
        self.has(w.cue) && writes_item(&w.act, item)
    }

    fn writers_of<K: Item>(&self, part: &[Entry<K>], item: K) -> Writers
        ensures marks { (n : ℕ) → marked result.cues n ≡ writer K.Item.alike (marked self.now.cues) item part.now n }
        ensures last { result.last ≡ last_writer K.Item.alike (marked self.now.cues) item part.now }
    {
        let mut cues = [false; 64];
        let mut last = None;
        for w in part {
            if self.sets(w, item) {
                cues[w.cue as usize - 1] = true;
                last = Some(w.cue);
            }
        }
        Writers { cues, last }
    }
}

// Whether a cue is a writer other than the reader.
fn is_other(reader: u32, writers: &[bool; 64], n: u32) -> bool
    ensures { result ≡ other reader writers.now n }
{
    n != reader && is_marked(writers, n)
}

// Whether a cue is a writer other than the cue of the source and the reader.
fn is_third(source: u32, reader: u32, earlier: &[bool; 64], later: &[bool; 64], n: u32) -> bool
    ensures { result ≡ third source reader earlier.now later.now n }
{
    n != source && n != reader && (is_marked(earlier, n) || is_marked(later, n))
}

impl Constraints {
    // Whether `a` must come before `b`. The functions on two cues and on three stand apart: one for both would take a list of cues and
    // a table, and ask how many.
    pub fn is_ahead(&self, a: u32, b: u32) -> bool
        ensures { result ≡ ahead_in self.now a b }
    {
        self.members.pair(a, b).is_some_and(|cell| self.ahead[cell])
    }

    // Whether `writer` must not stand between `source` and `reader`.
    pub fn is_apart(&self, source: u32, reader: u32, writer: u32) -> bool
        ensures { result ≡ apart_in self.now source reader writer }
    {
        self.members
            .triple(source, reader, writer)
            .is_some_and(|cell| self.apart[cell])
    }

    // Notes that `a` must come before `b`.
    fn put_ahead(&mut self, a: u32, b: u32)
        requires { Member self.old a × Member self.old b }
        ensures { PutsAhead self.old self.new a b }
    {
        if let Some(cell) = self.members.pair(a, b) {
            self.ahead[cell] = true;
        }
    }

    // Notes that `writer` must not stand between `source` and `reader`.
    fn put_apart(&mut self, source: u32, reader: u32, writer: u32)
        requires { Member self.old source × Member self.old reader × Member self.old writer }
        ensures { PutsApart self.old self.new source reader writer }
    {
        if let Some(cell) = self.members.triple(source, reader, writer) {
            self.apart[cell] = true;
        }
    }

    // Notes that the reader of the initial state comes before each other writer. A loop, since each turn changes the tables.
    fn put_first(&mut self, reader: u32, writers: &[bool; 64])
        requires { Member self.old reader × Within writers.now self.old }
        ensures { PutsFirst self.old self.new reader writers.now }
    {
        for n in 1..65u32 {
            if is_other(reader, writers, n) {
                self.put_ahead(reader, n);
            }
        }
    }

    // Notes that no other writer stands between the cue of the source and the reader, in a loop as well.
    fn put_between(&mut self, source: u32, reader: u32, earlier: &[bool; 64], later: &[bool; 64])
        requires { Member self.old source × Member self.old reader × Within earlier.now self.old × Within later.now self.old }
        ensures { PutsBetween self.old self.new source reader earlier.now later.now }
    {
        for n in 1..65u32 {
            if is_third(source, reader, earlier, later, n) {
                self.put_apart(source, reader, n);
            }
        }
    }

    // What a read asks: by its source, the cue whose write of the item was the last before it. None where the source is hidden.
    fn ask_read<K: Item>(
        &mut self,
        before: &[Entry<K>],
        cue: u32,
        item: K,
        after: &[Entry<K>],
    ) -> Option<()>
        requires { Member self.old cue }
        ensures { AskedRead K.Item.alike self.old self.new before.now cue item after.now result }
    {
        let earlier = self.members.writers_of(before, item);
        let later = self.members.writers_of(after, item);
        match earlier.last {
            None => self.put_first(cue, &later.cues),
            Some(source) => {
                if source != cue {
                    if is_marked(&earlier.cues, cue) || is_marked(&later.cues, source) {
                        return None;
                    }
                    self.put_ahead(source, cue);
                    self.put_between(source, cue, &earlier.cues, &later.cues);
                }
            }
        }
        Some(())
    }

    // What a write asks: its cue comes before that of the last write of the item.
    fn ask_write<K: Item>(&mut self, cue: u32, item: K, after: &[Entry<K>])
        requires { Member self.old cue }
        ensures { AskedWrite K.Item.alike self.old self.new cue item after.now }
    {
        if let Some(last) = self.members.writers_of(after, item).last {
            if last != cue {
                self.put_ahead(cue, last);
            }
        }
    }

    // What an entry asks. None where it is a read whose source is hidden in every order.
    fn ask<K: Item>(&mut self, before: &[Entry<K>], e: &Entry<K>, after: &[Entry<K>]) -> Option<()>
        ensures { Asked K.Item.alike self.old self.new before.now e.now after.now result }
    {
        if !self.members.has(e.cue) {
            return Some(());
        }
        match &e.act {
            Act::Read(item) => self.ask_read(before, e.cue, *item, after)?,
            Act::Write(item) => self.ask_write(e.cue, *item, after),
            _ => {}
        }
        Some(())
    }
}

// What the whole book asks, or none where some read's source is hidden in every order. Each entry is looked at with those before
// it and those after it, and a read only with writes, a write only with later writes: no two entries are compared twice.
pub fn constraints_of<K: Item>(entries: &[Entry<K>], members: Members) -> Option<Constraints>
    requires { (n : ℕ) → marked members.cues n ≡ committed entries.now n }
    ensures { Derived K.Item.alike entries.now result }
{
    let mut t = Constraints {
        members,
        ahead: [false; 64],
        apart: [false; 512],
    };
    for (p, e) in entries.iter().enumerate() {
        t.ask(&entries[..p], e, &entries[p + 1..])?;
    }
    Some(t)
}
