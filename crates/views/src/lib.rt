// Which order of the committed cues readers and the final state cannot tell from what happened.
#![tactic(auto)]

ghost use Rattle.std.specs.Prelude.{◌≡◌};
ghost use Rattle.views.specs.Answer.{views_answer, views_list, ViewsRight};
ghost use Rattle.views.specs.RefusalLaws.{ViewsRefusalIsTold};

use constraints::constraints_of;
use extending::Placing;
use history::Entry;
use items::Item;
use members::members_of;
use refusals::Refusal;

mod constraints;
mod extending;
mod members;

// How long the first view-equivalent order of the committed cues is, which stands at the front of
// `list` then, or none. Refused by 23 with more than 8 committed cues, then by 21 for a `list`
// with fewer cells than these; then, and where there is none, nothing is written. What such an
// order must keep is derived from the book once, and orders are extended cue by cue under it. A
// length and no slice, since the list stays the caller's.
pub fn views_of<K: Item>(entries: &[Entry<K>], list: &mut [u32]) -> Result<Option<usize>, Refusal>
    ensures answer { result ≡ views_answer K.Item.alike entries.now list.old }
    ensures list { list.new ≡ views_list K.Item.alike entries.now list.old }
    ensures right { ViewsRight K.Item.alike entries.now list.new result }
{
    let Some(members) = members_of(entries) else {
        return Err(Refusal::ManyCues);
    };
    let count = members.numbers().len();
    if list.len() < count {
        return Err(Refusal::ListShort);
    }
    let Some(constraints) = constraints_of(entries, members) else {
        return Ok(None);
    };
    let start = Placing {
        constraints: &constraints,
        placed: [false; 64],
    };
    let found = start.extend(&mut list[..count]);
    Ok(found.then_some(count))
}

// That views are refused by 23 with more than 8 committed cues, else by 21 for a list with fewer
// cells than these, and else not.
pub fn refusals_are_told<K>()
    ensures { ViewsRefusalIsTold K }
{}
