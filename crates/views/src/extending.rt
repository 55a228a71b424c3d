// The search for an order that keeps the constraints, cue by cue.
ghost use Rattle.std.specs.Prelude.{◌≡◌, length, is_some};
ghost use Rattle.equivalence.specs.Extending.{may_come};
ghost use Rattle.lists.specs.Lists.{some};
ghost use Rattle.orders.specs.Orders.{without};
ghost use Rattle.views.specs.Answer.{filled};
ghost use Rattle.views.specs.Shown.{placed_of, left_of, ahead_by, apart_by, rest_of};

use crate::constraints::Constraints;
use history::is_marked;

// Which of the members stand in the order already.
#[derive(Clone, Copy)]
pub struct Placing<'a> {
    pub constraints: &'a Constraints,
    pub placed: [bool; 64],
}

impl<'a> Placing<'a> {
    // Whether one of the other cues that are left must come before `x`. Apart from `is_held`, as a chain that calls a test which is handed
    // in leaves its goal open.
    fn is_led(&self, x: u32) -> bool
        ensures { result ≡ some (λ i. ahead_by self.now i x) (without x (left_of self.now)) }
    {
        self.constraints
            .members
            .numbers()
            .iter()
            .filter(|i| !is_marked(&self.placed, **i))
            .filter(|i| **i != x)
            .any(|i| self.constraints.is_ahead(*i, x))
    }

    // Whether `x` must not stand between `j` and one of the other cues that are left.
    fn is_held(&self, j: u32, x: u32) -> bool
        ensures { result ≡ some (λ i. apart_by self.now j i x) (without x (left_of self.now)) }
    {
        self.constraints
            .members
            .numbers()
            .iter()
            .filter(|i| !is_marked(&self.placed, **i))
            .filter(|i| **i != x)
            .any(|i| self.constraints.is_apart(j, *i, x))
    }

    // The same for one of the cues that are placed.
    fn is_barred(&self, x: u32) -> bool
        ensures { result ≡ some (λ j. some (λ i. apart_by self.now j i x) (without x (left_of self.now))) (placed_of self.now) }
    {
        self.constraints
            .members
            .numbers()
            .iter()
            .filter(|j| is_marked(&self.placed, **j))
            .any(|j| self.is_held(*j, x))
    }

    // Whether a cue that is left may come next: none of the others that are left must come before it, and it must not stand between
    // a cue that is placed and one that is left.
    fn may_come(&self, x: u32) -> bool
        ensures { result ≡ may_come (ahead_by self.now) (apart_by self.now) (placed_of self.now) x (without x (left_of self.now)) }
    {
        !self.is_led(x) && !self.is_barred(x)
    }

    // Fills the list with the first order of the cues left that keeps the constraints, if there is one. A loop, since each try writes
    // the rest of the list.
    pub fn extend(&self, list: &mut [u32]) -> bool
        requires { length (left_of self.now) ≡ length list.old }
        ensures found { result ≡ is_some (rest_of self.now) }
        ensures list { list.new ≡ filled (rest_of self.now) list.old }
    {
        let Some((first, rest)) = list.split_first_mut() else {
            return true;
        };
        for x in self.constraints.members.numbers() {
            if !is_marked(&self.placed, *x) && self.may_come(*x) {
                let mut placed = self.placed;
                placed[*x as usize - 1] = true;
                let next = Placing {
                    constraints: self.constraints,
                    placed,
                };
                if next.extend(rest) {
                    *first = *x;
                    return true;
                }
            }
        }
        false
    }
}
