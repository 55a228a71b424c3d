// Where each cue of a history first ends, in a table that is made in one pass.
ghost use Rattle.std.specs.Prelude.{◌≡◌};
ghost use Rattle.recovery.specs.Endings.{Notes, first_of, first_noted, ends_by, ended_before};
ghost use Rattle.history.specs.declared.Ending.{Ending};

use history::{Act, Ending, Entry, is_cue};

// The index of a cue's first commit and that of its first abort.
#[derive(Clone, Copy)]
struct Ends {
    commit: Option<usize>,
    abort: Option<usize>,
}

impl Ends {
    const OPEN: Ends = Ends {
        commit: None,
        abort: None,
    };

    // The index of the first ending of that kind.
    fn first(&self, how: Ending) -> Option<usize>
        ensures { result ≡ first_of how self.now }
    {
        match how {
            Ending::Commit => self.commit,
            Ending::Abort => self.abort,
        }
    }

    // Notes the act with index `i`, if it is the first such ending.
    fn note<K>(&mut self, act: &Act<K>, i: usize)
        ensures { (how : Ending) → first_of how self.new ≡ first_noted (first_of how self.old) (ends_by how act.now) i }
    {
        match act {
            Act::Commit => self.commit = self.commit.or(Some(i)),
            Act::Abort => self.abort = self.abort.or(Some(i)),
            _ => {}
        }
    }
}

// The ends of each cue.
#[derive(Clone, Copy)]
pub struct Endings {
    cues: [Ends; 64],
}

impl Endings {
    pub fn of<K>(entries: &[Entry<K>]) -> Self
        ensures { Notes entries.now result }
    {
        let mut cues = [Ends::OPEN; 64];
        for (i, e) in entries.iter().enumerate() {
            if is_cue(e.cue) {
                cues[e.cue as usize - 1].note(&e.act, i);
            }
        }
        Endings { cues }
    }

    // Whether the cue ended so before the entry with index `i`.
    pub fn ended_before(&self, how: Ending, cue: u32, i: usize) -> bool
        ensures { result ≡ ended_before how self.now cue i }
    {
        is_cue(cue)
            && self.cues[cue as usize - 1]
                .first(how)
                .is_some_and(|at| at < i)
    }
}
