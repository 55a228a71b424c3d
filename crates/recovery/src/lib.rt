// How recoverable a history is.
#![tactic(auto)]

ghost use Rattle.std.specs.Prelude.{◌≡◌, ◌+◌, ◌<◌, IfSome, take, drop};
ghost use Rattle.lists.specs.Lists.{first_from};
ghost use Rattle.recovery.specs.Classes.{class_number, class_place, class_of};
ghost use Rattle.recovery.specs.ReadsFrom.{IsClass};
ghost use Rattle.recovery.specs.Rules.{Computes};
ghost use Rattle.recovery.specs.Laws.{BreaksStay, FirstBreak, BreaksComeTogether, ClassNeverRises};
ghost use Rattle.recovery.specs.Laws.{SourceIsReadFrom, BreaksAreByPlaces, ClassIsByPlaces, ClassIsNumbered};
ghost use Rattle.recovery.specs.Laws.{SerialIsStrict};
ghost use Rattle.recovery.specs.Laws.{ReadHasOneSource, OwnWriteIsRead, BreaksAreAtTheirActs};

mod endings;
mod past;

use endings::Endings;
use history::Entry;
use items::Item;
use past::Past;

// The class of a history, with the place, from 1, of the first break that keeps it from the next
// class.
#[derive(Clone, Copy, PartialEq, Eq, Debug)]
pub enum Class {
    // Not recoverable: a cue commits that read from another that has not.
    NotRecoverable(usize),
    // Recoverable, but not cascadeless: a cue reads from another that has not committed.
    Recoverable(usize),
    // Cascadeless, but not strict: a cue reads or writes what another cue wrote that has not ended.
    Cascadeless(usize),
    Strict,
}

impl Class {
    // By a match, since a cast takes no enum whose cases hold a value.
    pub fn number(self) -> u32
        ensures { result ≡ class_number self }
    {
        match self {
            Class::NotRecoverable(_) => 0,
            Class::Recoverable(_) => 1,
            Class::Cascadeless(_) => 2,
            Class::Strict => 3,
        }
    }

    // The place of the break; 0 for a strict history, as a report writes it.
    pub fn place(self) -> usize
        ensures { result ≡ class_place self }
    {
        match self {
            Class::NotRecoverable(place) | Class::Recoverable(place) | Class::Cascadeless(place) =>
                place,
            Class::Strict => 0,
        }
    }
}

// The place of the first entry that breaks a rule, from index `from` on.
fn first_break<K, F: Fn(usize, &Entry<K>) -> bool>(
    entries: &[Entry<K>],
    from: usize,
    breaks: F,
) -> Option<usize>
    requires { F.IsAlwaysCallable breaks }
    ensures place { IfSome result (λ p. 0 < p) }
    ensures first { (rule : _) → Computes (F.post breaks) entries.now rule → result ≡ first_from rule (from + 1) (take from entries.now) (drop from entries.now) }
{
    entries
        .iter()
        .enumerate()
        .skip(from)
        .find(|(i, e)| breaks(*i, e))
        .map(|(i, _)| i + 1)
}

// The class of a history. A break of cascadelessness is one of strictness too, and a break of recoverability follows one
// of cascadelessness, so each rule is looked at only from the first break of the rule before it on.
pub fn class_of<K: Item>(entries: &[Entry<K>]) -> Class
    ensures class { result ≡ class_of K.Item.alike entries.now }
    ensures breaks { IsClass K.Item.alike entries.now result }
{
    let endings = Endings::of(entries);
    let history = Past {
        entries,
        endings: &endings,
    };
    let Some(strict) = first_break(entries, 0, |i, e| history.before(i).breaks_strict(e)) else {
        return Class::Strict;
    };
    let Some(cascadeless) = first_break(
        entries,
        strict - 1,
        |i, e| history.before(i).breaks_cascadeless(e),
    ) else {
        return Class::Cascadeless(strict);
    };
    match first_break(
        entries,
        cascadeless - 1,
        |i, e| history.before(i).breaks_recoverable(e),
    ) {
        Some(place) => Class::NotRecoverable(place),
        None => Class::Recoverable(cascadeless),
    }
}

// The laws that breaks and classes keep, whatever is entered.
pub fn laws_hold<K>()
    ensures stay { BreaksStay K }
    ensures first { FirstBreak K }
    ensures together { BreaksComeTogether K }
    ensures falls { ClassNeverRises K }
    ensures source { SourceIsReadFrom K }
    ensures places { BreaksAreByPlaces K }
    ensures class { ClassIsByPlaces K }
    ensures numbers { ClassIsNumbered K }
    ensures one { ReadHasOneSource K }
    ensures own { OwnWriteIsRead K }
    ensures acts { BreaksAreAtTheirActs K }
    ensures serial { SerialIsStrict K }
{}
