// What had been entered before an entry, and which rules of recovery the entry breaks there.
ghost use Rattle.std.specs.Prelude.{◌≡◌, not, ◌&&◌, [], take, ◌==◌};
ghost use Rattle.std.specs.Option.{option_map};
ghost use Rattle.lists.specs.Lists.{some, somewhere};
ghost use Rattle.history.specs.Conflicts.{writes};
ghost use Rattle.history.specs.Entries.{acted, committed, aborted, ended};
ghost use Rattle.recovery.specs.Breaks.{source, reads_from, breaks_recoverable, breaks_cascadeless, breaks_strict};
ghost use Rattle.recovery.specs.Endings.{Tells, ends_by};

use crate::endings::Endings;
use history::{Act, Ending, Entry, writes_item};
use items::Item;

// The entries, with the ends of the cues in them.
#[derive(Drop)]
pub struct Past<'a, K> {
    pub entries: &'a [Entry<K>],
    pub endings: &'a Endings,
    ghost tells: { Tells entries.now endings.now },
}

impl<'a, K: Item> Past<'a, K> {
    // What had been entered before the entry with index `i`.
    pub fn before(&self, i: usize) -> Past<'a, K>
        ensures { result.entries.now ≡ take i self.now.entries.now }
    {
        Past {
            entries: self.entries.get(..i).unwrap_or(self.entries),
            endings: self.endings,
        }
    }

    // Whether the cue has ended so.
    fn ended_by(&self, how: Ending, cue: u32) -> bool
        ensures { result ≡ acted (ends_by how) self.now.entries.now cue }
    {
        self.endings.ended_before(how, cue, self.entries.len())
    }

    // Whether the cue has ended.
    #[tactic(auto, using(history::proofs::Endings::ended_either))]
    fn ended(&self, cue: u32) -> bool
        ensures { result ≡ ended self.now.entries.now cue }
    {
        self.ended_by(Ending::Commit, cue) || self.ended_by(Ending::Abort, cue)
    }

    // Whether the entry is a write of the item by a cue that has not aborted. The table is asked
    // first, since comparing marks takes longer than that.
    fn stands(&self, w: &Entry<K>, item: K) -> bool
        ensures { result ≡ (writes (K.Item.alike item) w.now.act && not (aborted self.now.entries.now w.now.cue)) }
    {
        !self.ended_by(Ending::Abort, w.cue) && writes_item(&w.act, item)
    }

    // The cue that last wrote the item, leaving out cues that have aborted.
    fn source_of(&self, item: K) -> Option<u32>
        ensures { result ≡ option_map (λ p. p.1.cue) (source K.Item.alike self.now.entries.now item) }
    {
        self.entries
            .iter()
            .rev()
            .find(|w| self.stands(w, item))
            .map(|w| w.cue)
    }

    // Whether an entry reads from another cue, which has not committed in `seen`.
    fn reads_uncommitted(&self, e: &Entry<K>, seen: &Past<'a, K>) -> bool
        ensures { result ≡ reads_from K.Item.alike (λ j. not (committed seen.now.entries.now j)) self.now.entries.now e.now }
    {
        let Act::Read(item) = &e.act else {
            return false;
        };
        let Some(cue) = self.source_of(*item) else {
            return false;
        };
        cue != e.cue && !seen.ended_by(Ending::Commit, cue)
    }

    // Whether another cue than `cue` wrote the item and has not ended.
    fn other_holds(&self, cue: u32, item: K) -> bool
        ensures { result ≡ some (λ w. writes (K.Item.alike item) w.act && (not (w.cue == cue) && not (ended self.now.entries.now w.cue))) self.now.entries.now }
    {
        self.entries.iter().any(|w| w.cue != cue && !self.ended(w.cue) && writes_item(&w.act, item))
    }

    // Whether a read by the cue was from another that has not committed.
    fn owes(&self, cue: u32) -> bool
        ensures { result ≡ somewhere (λ before r. (r.cue == cue) && reads_from K.Item.alike (λ j. not (committed self.now.entries.now j)) before r) [] self.now.entries.now }
    {
        self.entries.iter().enumerate().any(|(i, r)| r.cue == cue
            && self.before(i).reads_uncommitted(r, self))
    }

    pub fn breaks_recoverable(&self, e: &Entry<K>) -> bool
        ensures { result ≡ breaks_recoverable K.Item.alike self.now.entries.now e.now }
    {
        e.act.is_commit() && self.owes(e.cue)
    }

    pub fn breaks_cascadeless(&self, e: &Entry<K>) -> bool
        ensures { result ≡ breaks_cascadeless K.Item.alike self.now.entries.now e.now }
    {
        self.reads_uncommitted(e, self)
    }

    pub fn breaks_strict(&self, e: &Entry<K>) -> bool
        ensures { result ≡ breaks_strict K.Item.alike self.now.entries.now e.now }
    {
        match &e.act {
            Act::Read(item) | Act::Write(item) => self.other_holds(e.cue, *item),
            _ => false,
        }
    }
}
