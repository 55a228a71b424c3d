// What holds of view-equivalent orders, for every kind of item.
#![tactic(auto)]

ghost use Rattle.equivalence.specs.Constraints.{ViewIsAllowed};
ghost use Rattle.equivalence.specs.Extending.{ViewsByConstraints};
ghost use Rattle.equivalence.specs.Laws.{ConflictIsSeen, CycleFits, FirstOrdersAreRight};
ghost use Rattle.equivalence.specs.Laws.{KeptIsView, OneAnswerIsRight, ViewIsSame};
ghost use Rattle.equivalence.specs.Sources.{SourcesAreTold, ViewIsTold};

// That an order which keeps every conflicting pair is view-equivalent, for any number of cues.
pub fn kept_is_view<K>()
    ensures { KeptIsView K }
{}

// That an order is view-equivalent exactly when it keeps the source of every read and the last write of every item.
pub fn view_is_same<K>()
    ensures { ViewIsSame K }
{}

// That an order is view-equivalent exactly when it keeps the constraints, which tell of cues alone.
pub fn view_is_allowed<K>()
    ensures allowed { ViewIsAllowed K }
    ensures first { ViewsByConstraints K }
{}

// That the first orders which the definitions of order and views find are right to answer, and
// that it is right to answer that there is none where they find none.
pub fn first_orders_are_right<K>()
    ensures { FirstOrdersAreRight K }
{}

// That these are the only right answers: an order is right to show exactly when it is the first,
// a cycle exactly when there is no first order and it is one. And that a list with a cell for each
// committed cue has room for any cycle.
pub fn one_answer_is_right<K>()
    ensures right { OneAnswerIsRight K }
    ensures fits { CycleFits K }
{}

// That two entries conflict exactly when they are of different cues and some reader, or the final
// state, can tell which of the two came first.
pub fn conflict_is_seen<K>()
    ensures { ConflictIsSeen K }
{}

// That the last writes and the sources of reads that the definitions find are those that the places
// of the entries tell, as the entries were made and in the serial list of an order. And that an
// order keeps the view exactly when these places stay, and so does an order that is shown.
pub fn sources_are_told<K>()
    ensures sources { SourcesAreTold K }
    ensures view { ViewIsTold K }
{}
