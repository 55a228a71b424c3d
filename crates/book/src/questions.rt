// Questions about the accepted entries, which change nothing.
ghost use Rattle.std.specs.Prelude.{◌≡◌, IfOk};
ghost use Rattle.recovery.specs.Classes.{class_of};
ghost use Rattle.recovery.specs.ReadsFrom.{IsClass};
ghost use Rattle.book.specs.Entering.{accepted};
ghost use Rattle.graphs.specs.Answer.{strip_after};
ghost use Rattle.serial.specs.OrderAnswer.{cycle_in, order_answer, order_list, shown_in};
ghost use Rattle.history.specs.Answers.{AnswersOrder, ShownKeepsView};
ghost use Rattle.serial.specs.Why.{why_answer, Tells};
ghost use Rattle.views.specs.Answer.{views_answer, views_list, ViewsRight};

use crate::Book;
use graphs::Found;
use items::Item;
use recovery::{Class, class_of};
use refusals::Refusal;
use serial::{Pair, order_of};
use views::views_of;

impl<'a, K: Item> Book<'a, K> {
    // How recoverable the book is, with the place, from 1, of the first break that keeps it from
    // the next class.
    pub fn class(&self) -> Class
        ensures class { result ≡ class_of K.Item.alike (accepted self.now) }
        ensures breaks { IsClass K.Item.alike (accepted self.now) result }
    {
        class_of(self.entries())
    }

    // The first order of the committed cues that keeps every conflicting pair, or else a cycle of
    // them, at the front of `list`; answers which, and how many cells it fills. The strip is
    // working memory. Refused by 22 for a `strip` of fewer than 64 bytes, then by 21 for a `list`
    // with fewer cells than committed cues; a refusal writes nothing.
    pub fn order(&self, list: &mut [u32], strip: &mut [u8]) -> Result<Found, Refusal>
        ensures answer { let cycle = cycle_in result list.new in
            result ≡ order_answer K.Item.alike (accepted self.now) list.old strip.old cycle }
        ensures list { let cycle = cycle_in result list.new in
            list.new ≡ order_list K.Item.alike (accepted self.now) list.old strip.old cycle }
        ensures strip { strip.new ≡ strip_after result strip.old }

        // Which cycle is shown, where one is, is free.
        ensures right { IfOk result (λ found.
            AnswersOrder K.Item.alike (accepted self.now) (shown_in found list.new)) }
        ensures view { IfOk result (λ found.
            ShownKeepsView K.Item.alike (accepted self.now) (shown_in found list.new)) }
    {
        order_of(self.entries(), list, strip)
    }

    // How many cues the first view-equivalent order of the committed cues has, which stands at
    // the front of `list` then, or none. Refused by 23 with more than 8 committed cues, then by
    // 21 for a `list` with fewer cells than these; then, and where there is none, nothing is
    // written.
    pub fn views(&self, list: &mut [u32]) -> Result<Option<usize>, Refusal>
        ensures answer { result ≡ views_answer K.Item.alike (accepted self.now) list.old }
        ensures list { list.new ≡ views_list K.Item.alike (accepted self.now) list.old }
        ensures right { ViewsRight K.Item.alike (accepted self.now) list.new result }
    {
        views_of(self.entries(), list)
    }

    // The first two places, from 1, of conflicting entries, of cue `i` and then of cue `j`,
    // committed or not; `None` where there are none. Refused by 24 for a number outside 1 to 64
    // and for equal numbers.
    pub fn why(&self, i: u32, j: u32) -> Result<Option<Pair>, Refusal>
        ensures answer { result ≡ why_answer K.Item.alike (accepted self.now) i j }
        ensures tells { Tells K.Item.alike (accepted self.now) i j result }
    {
        serial::why(self.entries(), i, j)
    }
}
