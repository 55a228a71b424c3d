// What entering answers and leaves, and what a ticket does, told in words.
ghost use Rattle.book.specs.Entered.{EnteringIsTold, GrowingIsTold, EnteredStands};
ghost use Rattle.book.specs.Entered.{BeginningIsTold, StepsAreActs, UnderIsTold, ClosingIsTold};

// That an entry is accepted, with the next place, of a cue from 1 to 64 that has no commit or abort
// while a place is free, that it then stands at its place after the others, and that else the first
// of the refusals that applies is the answer.
pub fn entering_is_told<K>()
    ensures entering { EnteringIsTold K }
    ensures growing { GrowingIsTold K }
    ensures stands { EnteredStands K }
{}

// That a ticket is given for a cue from 1 to 64 without an entry, and is that cue's, that what is
// entered under it is of that cue and does what the step says, and that an ending answers with a
// receipt, or gives the ticket back.
pub fn tickets_are_told<K>()
    ensures beginning { BeginningIsTold K }
    ensures steps { StepsAreActs K }
    ensures under { UnderIsTold K }
    ensures closing { ClosingIsTold }
{}
