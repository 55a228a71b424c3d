// The committed cues, where they are few enough for views.
ghost use Rattle.std.specs.Prelude.{◌≡◌, ℕ, ◌≤◌, ◌<◌, length, take, IfSome, IfNone};
ghost use Rattle.orders.specs.Orders.{among};
ghost use Rattle.history.specs.Entries.{committed};
ghost use Rattle.history.specs.Marked.{marked};
ghost use Rattle.history.specs.Order.{committed_cues};
ghost use Rattle.views.specs.Ranks.{rank_in, rank_noted};

use history::{Entry, committed_cues, is_marked};

// How many committed cues have views.
pub const MOST: usize = 8;

// The cues that a table marks, and their numbers in rising order: an array and a count, as there is
// no heap. The rank of each stands in the cell of its number, since the search asks for ranks at
// every step; the other cells say nothing.
#[derive(Clone, Copy)]
pub struct Members {
    pub cues: [bool; 64],
    numbers: [u32; MOST],
    count: usize,
    ranks: [usize; 64],
    ghost few: { count ≤ 8 },
    ghost rising: { take count numbers ≡ among (marked cues) },
    ghost ranked: { (n : ℕ) → rank_noted cues ranks n ≡ rank_in cues n },
}

impl Members {
    ghost use Rattle.views.specs.Tables.{pair_in, triple_in};

    pub fn numbers(&self) -> &[u32]
        ensures { result.now ≡ among (marked self.now.cues) }
    {
        &self.numbers[..self.count]
    }

    pub fn has(&self, n: u32) -> bool
        ensures { result ≡ marked self.now.cues n }
    {
        is_marked(&self.cues, n)
    }

    // The rank of a cue among them, from 0.
    pub fn rank(&self, n: u32) -> Option<usize>
        ensures is { result ≡ rank_in self.now.cues n }
        ensures small { IfSome result (λ r. r < 8) }
    {
        if self.has(n) {
            Some(self.ranks[n as usize - 1])
        } else {
            None
        }
    }

    // The ranks of two cues as the digits of a number.
    pub fn pair(&self, a: u32, b: u32) -> Option<usize>
        ensures is { result ≡ pair_in self.now.cues a b }
        ensures small { IfSome result (λ r. r < 64) }
    {
        Some(self.rank(a)? * MOST + self.rank(b)?)
    }

    // The ranks of three.
    pub fn triple(&self, a: u32, b: u32, c: u32) -> Option<usize>
        ensures is { result ≡ triple_in self.now.cues a b c }
        ensures small { IfSome result (λ r. r < 512) }
    {
        Some(self.pair(a, b)? * MOST + self.rank(c)?)
    }
}

// The committed cues, or none where they are too many. Counted by hand, since the numbers go into an array: there is no heap to
// collect into.
pub fn members_of<K>(entries: &[Entry<K>]) -> Option<Members>
    ensures some { IfSome result (λ m. (n : ℕ) → marked m.cues n ≡ committed entries.now n) }
    ensures none { IfNone result (8 < length (committed_cues entries.now)) }
{
    let cues = committed_cues(entries);
    let mut numbers = [0; MOST];
    let mut count = 0;
    let mut ranks = [0; 64];
    for n in 1..65u32 {
        if is_marked(&cues, n) {
            if count == MOST {
                return None;
            }
            ranks[n as usize - 1] = count;
            numbers[count] = n;
            count += 1;
        }
    }
    Some(Members {
        cues,
        numbers,
        count,
        ranks,
    })
}
