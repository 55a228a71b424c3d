// Questions about the order that conflicts put cues in.
#![tactic(auto)]

ghost use Rattle.std.specs.Prelude.{◌≡◌, IfOk};
ghost use Rattle.graphs.specs.Answer.{strip_after};
ghost use Rattle.history.specs.Order.{CycleLasts};
ghost use Rattle.serial.specs.OrderAnswer.{cycle_in, order_answer, order_list, shown_in};
ghost use Rattle.serial.specs.RefusalLaws.{OrderRefusalIsTold};
ghost use Rattle.history.specs.Answers.{AnswersOrder, ShownKeepsView};
ghost use Rattle.serial.specs.Why.{two_cues, why_of, why_answer, Tells, WhyIsTold};

use arrows::conflict_graph;
use graphs::{Found, search};
use history::{Entry, conflicts, is_cue};
use items::Item;
use refusals::Refusal;

mod arrows;

// The two places that put one cue before another.
#[derive(Clone, Copy, PartialEq, Eq, Debug)]
pub struct Pair {
    pub first: usize,
    pub second: usize,
}

// Whether the numbers are those of two cues.
fn are_two_cues(i: u32, j: u32) -> bool
    ensures { result ≡ two_cues i j }
{
    is_cue(i) && is_cue(j) && i != j
}

// The first entry of cue `i` with which a later one of cue `j` conflicts, and the first such one. Two loops that are left with the
// pair: a chain in the closure of another is no plainer.
fn first_pair<K: Item>(entries: &[Entry<K>], i: u32, j: u32) -> Option<Pair>
    ensures { result ≡ why_of K.Item.alike entries.now i j }
{
    for (p, x) in entries.iter().enumerate() {
        if x.cue == i {
            let later = &entries[p + 1..];
            for (q, y) in later.iter().enumerate() {
                if y.cue == j && conflicts(x, y) {
                    return Some(Pair {
                        first: p + 1,
                        second: p + 2 + q,
                    });
                }
            }
        }
    }
    None
}

// The first two places, from 1, of conflicting entries, of cue `i` and then of cue `j`, committed
// or not; `None` where there are none. Refused by 24 for a number outside 1 to 64 and for equal
// numbers.
pub fn why<K: Item>(entries: &[Entry<K>], i: u32, j: u32) -> Result<Option<Pair>, Refusal>
    ensures answer { result ≡ why_answer K.Item.alike entries.now i j }
    ensures tells { Tells K.Item.alike entries.now i j result }
{
    if !are_two_cues(i, j) {
        return Err(Refusal::CuePair);
    }
    Ok(first_pair(entries, i, j))
}

// The first order of the committed cues that keeps every conflicting pair, or else a cycle of
// them, at the front of `list`; answers which, and how many cells it fills. Refused by 22 for a
// `strip` of fewer than 64 bytes, then by 21 for a `list` with fewer cells than committed cues; a
// refusal writes nothing.
pub fn order_of<K: Item>(
    entries: &[Entry<K>],
    list: &mut [u32],
    strip: &mut [u8],
) -> Result<Found, Refusal>
    ensures answer { let cycle = cycle_in result list.new in
        result ≡ order_answer K.Item.alike entries.now list.old strip.old cycle }
    ensures list { let cycle = cycle_in result list.new in
        list.new ≡ order_list K.Item.alike entries.now list.old strip.old cycle }
    ensures strip { strip.new ≡ strip_after result strip.old }

    // Which cycle is shown, where one is, is free.
    ensures right { IfOk result (λ found.
        AnswersOrder K.Item.alike entries.now (shown_in found list.new)) }
    ensures view { IfOk result (λ found.
        ShownKeepsView K.Item.alike entries.now (shown_in found list.new)) }
{
    let graph = conflict_graph(entries);
    search(&graph, list, strip)
}

// That a cycle lasts: once there is one, no order is found again.
pub fn cycle_lasts<K>()
    ensures { CycleLasts K }
{}

// That what `tells` promises of an answer of `why` is true of no other answer, refusals included:
// for any entries and numbers it holds of exactly what `answer` promises.
pub fn why_is_told<K>()
    ensures { WhyIsTold K }
{}

// That an order is refused by 22 for a strip of fewer than 64 bytes, else by 21 for a list with
// fewer cells than committed cues, and else not.
pub fn refusals_are_told<K>()
    ensures { OrderRefusalIsTold K }
{}
