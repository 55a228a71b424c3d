// Wait lists of winches, searched as graphs.
ghost use Rattle.std.specs.Prelude.{◌≡◌, length, IfOk};
ghost use Rattle.graphs.specs.Answer.{refusal_in, strip_after, Lists};
ghost use Rattle.graphs.specs.Waits.{is_winch, waits_has, waits_edge, all_winches, wait_refusal};
ghost use Rattle.graphs.specs.WaitLaws.{AnswersWaits, WaitsAreTold};

use crate::{Found, Graph, search};
use refusals::Refusal;

// One row of a wait list: a winch and the winch that it waits for.
#[derive(Clone, Copy)]
pub struct Wait {
    pub winch: u32,
    pub awaited: u32,
}

// Who waits for whom: an edge runs from the awaited winch to the one that waits.
#[derive(Clone, Copy)]
pub struct WaitList<'a> {
    rows: &'a [Wait],
}

impl<'a> WaitList<'a> {
    pub fn new(rows: &'a [Wait]) -> WaitList<'a>
        ensures { result.rows.now ≡ rows.now }
    {
        WaitList { rows }
    }
}

impl Graph for WaitList<'_> {
    ghost numbers = { λ w. waits_has w.rows.now };

    ghost edges = { λ w. waits_edge w.rows.now };

    fn has(&self, n: u32) -> bool {
        self.rows
            .iter()
            .any(|row| row.winch == n || row.awaited == n)
    }

    fn edge(&self, from: u32, to: u32) -> bool {
        self.rows
            .iter()
            .any(|row| row.awaited == from && row.winch == to)
    }
}

// Whether a number can be a winch's: as a cue's, but histories know no winch and the search no cue.
fn is_winch(n: u32) -> bool
    ensures { result ≡ is_winch n }
{
    (1..=64).contains(&n)
}

// Whether each number in the rows can be a winch's.
fn all_winches(rows: &[Wait]) -> bool
    ensures { result ≡ all_winches rows.now }
{
    rows.iter()
        .all(|row| is_winch(row.winch) && is_winch(row.awaited))
}

// The first order in which the winches can move, or a cycle of winches that wait for one another.
pub fn wait_order(rows: &[Wait], list: &mut [u32], strip: &mut [u8]) -> Result<Found, Refusal>
    ensures refuses { refusal_in result ≡ wait_refusal rows.now (length list.old) (length strip.old) }
    ensures strip { strip.new ≡ strip_after result strip.old }
    ensures lists { Lists (waits_has rows.now) (waits_edge rows.now) list.old list.new result }
    ensures right { IfOk result (λ found. AnswersWaits rows.now found list.new) }
{
    if !all_winches(rows) {
        return Err(Refusal::NoSuchWinch);
    }
    search(&WaitList::new(rows), list, strip)
}

// That the winches and who waits for whom are those of the rows, that 31 is refused where a row has a number outside 1 to 64 and
// only there, and elsewhere what a search refuses. That the orders that are searched are the orders of the winches, and that one
// of them follows every edge exactly when each awaited winch comes before the one that waits for it. That the order that is found
// is the first in which the winches can move, that none is found exactly where they never can, that a cycle of the graph is one of
// winches that wait for each other, and that where one is, they never can. That what is right to answer is what a search finds.
pub fn waits_are_told()
    ensures { WaitsAreTold }
{}
