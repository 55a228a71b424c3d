// The first order in dictionary order of a graph's numbers that follows every edge, or a cycle.
#![tactic(auto)]

ghost use Rattle.std.specs.Prelude.{◌≡◌, ℕ, ◌+◌, ◌-◌, ◌≤◌, Bool, true, false, List, length, take, drop, MatchOption, replicate, slice_set};
ghost use Rattle.graphs.specs.Edges.{FollowsForward};
ghost use Rattle.graphs.specs.Answer.{Finds, search_refusal, refusal_in, strip_after, Lists};
ghost use Rattle.graphs.specs.RefusalLaws.{SearchRefusalIsTold};
ghost use Rattle.orders.specs.Orders.{among};
ghost use Rattle.graphs.specs.Rows.{waits, mark, Smallest, SmallestTo, Ready, Stuck, Picked, Marked, Placing, Walked};
ghost use Rattle.graphs.specs.Kept.{Keeps};

use refusals::Refusal;

mod waits;

pub use waits::{Wait, WaitList, wait_order, waits_are_told};

// A graph over some of the numbers from 1 to 64.
pub trait Graph {
    ghost numbers: { Self → ℕ → Bool };

    ghost edges: { Self → ℕ → ℕ → Bool };

    fn has(&self, n: u32) -> bool
        ensures { result ≡ numbers self.now n };

    fn edge(&self, from: u32, to: u32) -> bool
        ensures { result ≡ edges self.now from to };
}

// What a search found, by how many cells of the list hold it: a length, since the list stays the caller's.
#[derive(Clone, Copy)]
pub enum Found {
    Order(usize),
    Cycle(usize),
}

// How many numbers the graph has.
fn count<G: Graph>(graph: &G) -> usize
    ensures { result ≡ length (among (G.numbers graph.now)) }
{
    (1..65).filter(|m| graph.has(*m)).count()
}

// A row of numbers by their marks: the `size` above `base`, in the order of their marks.
#[derive(Clone, Copy)]
struct Row {
    base: u8,
    size: u8,
}

// A search of a graph, with its marks over the first 64 bytes of a strip, which are zero again once it is let go. A mark is a byte,
// since the caller lends no more for a number.
struct Marks<'a, G> {
    graph: &'a G,
    strip: &'a mut [u8; 64],
}

impl<G> Drop for Marks<'_, G> {
    fn drop(self)
        ensures { self.exit.1.0.now ≡ replicate 64 0 }
    {
        self.strip.fill(0);
        let Marks { graph: _, strip: _ } = self;
    }
}

impl<G: Graph> Marks<'_, G> {
    // The mark of the number `m`. Numbers stay plain, with their bounds in the clauses, since a graph is asked of plain ones.
    fn mark(&self, m: u32) -> u8
        requires { (1 ≤ m) × (m ≤ 64) }
        ensures { result ≡ mark self.now.strip.now m }
    {
        let strip = &*self.strip;
        strip[m as usize - 1]
    }

    // Gives the number `m` a mark.
    fn put(&mut self, m: u32, mark: u8)
        requires { (1 ≤ m) × (m ≤ 64) }
        ensures same { Keeps self.old self.new }
        ensures written { self.new.strip.now ≡ slice_set self.old.strip.now (m - 1) mark }
        ensures long { length self.old.strip.now ≡ 64 }
    {
        let strip = &mut *self.strip;
        strip[m as usize - 1] = mark;
    }

    // Whether the graph has `m` and it is not placed.
    fn waits(&self, m: u32) -> bool
        requires { (1 ≤ m) × (m ≤ 64) }
        ensures { result ≡ waits (G.numbers self.now.graph.now) self.now.strip.now m }
    {
        let mark = self.mark(m);
        self.graph.has(m) && (mark == 0 || mark > 64)
    }

    // The smallest waiting number.
    fn left(&self) -> Option<u32>
        ensures { let U = waits (G.numbers self.now.graph.now) self.now.strip.now in MatchOption result ((m : ℕ) → 1 ≤ m → m ≤ 64 → U m ≡ false) (Smallest U) }
    {
        (1..65).find(|m| self.waits(*m))
    }

    // The smallest waiting number with an edge to `to`.
    fn before(&self, to: u32) -> Option<u32>
        ensures { let U = waits (G.numbers self.now.graph.now) self.now.strip.now in let edge = G.edges self.now.graph.now in MatchOption result (Ready U edge to) (SmallestTo U edge to) }
    {
        (1..65).find(|m| self.waits(*m) && self.graph.edge(*m, to))
    }

    // The smallest waiting number with no edge to it from a waiting one.
    fn pick(&self) -> Option<u32>
        ensures { let U = waits (G.numbers self.now.graph.now) self.now.strip.now in let edge = G.edges self.now.graph.now in MatchOption result (Stuck U edge) (Picked U edge) }
    {
        (1..65).find(|m| self.waits(*m) && self.before(*m).is_none())
    }

    // Marks each number that can be placed with its place, counted from 1: the count is the mark that is given.
    fn place(&mut self) -> u8
        requires { self.old.strip.now ≡ replicate 64 0 }
        ensures same { Keeps self.old self.new }
        ensures done { Placing (G.numbers self.old.graph.now) (G.edges self.old.graph.now) self.new.strip.now result }
        ensures stuck { Stuck (waits (G.numbers self.old.graph.now) self.new.strip.now) (G.edges self.old.graph.now) }
    {
        let mut placed = 0u8;
        while let Some(m) = self.pick() {
            placed += 1;
            self.put(m, placed);
        }
        placed
    }

    // Walks back from `from` along waiting numbers until one comes again, and gives the cycle. Marks fall from
    // 128: the count is the mark.
    fn walk(&mut self, from: u32) -> Row
        requires in_bounds { (1 ≤ from) × (from ≤ 64) }
        requires from_value { waits (G.numbers self.old.graph.now) self.old.strip.now from ≡ true }
        requires by_index { (m : ℕ) → 1 ≤ m → m ≤ 64 → mark self.old.strip.now m ≤ 64 }
        requires stuck { Stuck (waits (G.numbers self.old.graph.now) self.old.strip.now) (G.edges self.old.graph.now) }
        ensures same { Keeps self.old self.new }
        ensures ring { Walked (G.numbers self.old.graph.now) (G.edges self.old.graph.now) self.new.strip.now result.base result.size }
    {
        let mut at = from;
        let mut base = 128u8;
        while self.mark(at) == 0 {
            self.put(at, base);
            base -= 1;
            match self.before(at) {
                Some(u) => at = u,
                None => unreachable!(),
            }
        }
        Row {
            base,
            size: self.mark(at) - base,
        }
    }

    // Writes the numbers of a row. By number, since its mark says which cell it fills.
    fn write(&self, list: &mut [u32], row: Row)
        requires { (row.size ≤ length list.old) × (row.base + row.size ≤ 128) }
        ensures row { (xs : List ℕ) → length xs ≡ row.size → Marked row.base xs self.now.strip.now → take row.size list.new ≡ xs }
        ensures rest { drop row.size list.new ≡ drop row.size list.old }
    {
        for m in 1..65u32 {
            let mark = self.mark(m);
            if mark > row.base && mark <= row.base + row.size {
                list[(mark - row.base - 1) as usize] = m;
            }
        }
    }
}

// Fills the front of `list` with the first order, or else with a cycle.
fn fill<G: Graph>(graph: &G, list: &mut [u32], strip: &mut [u8; 64]) -> Found
    requires { length (among (G.numbers graph.now)) ≤ length list.old }
    ensures found { Finds (G.numbers graph.now) (G.edges graph.now) list.old list.new result }
    ensures blank { strip.new ≡ replicate 64 0 }
{
    strip.fill(0);
    let mut marks = Marks { graph, strip };
    let placed = marks.place();
    if let Some(from) = marks.left() {
        let ring = marks.walk(from);
        marks.write(list, ring);
        return Found::Cycle(ring.size as usize);
    }
    marks.write(
        list,
        Row {
            base: 0,
            size: placed,
        },
    );
    Found::Order(placed as usize)
}

// The first order of the graph's numbers that follows every edge, or else a cycle, at the front of `list`. List and strip are the
// caller's memory, lent each for itself.
pub fn search<G: Graph>(graph: &G, list: &mut [u32], strip: &mut [u8]) -> Result<Found, Refusal>
    ensures refuses { refusal_in result ≡ search_refusal (G.numbers graph.now) (length list.old) (length strip.old) }
    ensures strip { strip.new ≡ strip_after result strip.old }
    ensures lists { Lists (G.numbers graph.now) (G.edges graph.now) list.old list.new result }
{
    let Some(strip) = strip.first_chunk_mut::<64>() else {
        return Err(Refusal::StripShort);
    };
    if list.len() < count(graph) {
        return Err(Refusal::ListShort);
    }
    Ok(fill(graph, list, strip))
}

// That an order follows every edge exactly when each edge between its numbers runs forward.
pub fn follows_stands()
    ensures { FollowsForward }
{}

// That a search is refused by 22 for a strip of fewer than 64 bytes, else by 21 for a list with fewer cells than the graph has
// numbers, and else not.
pub fn refusals_are_told()
    ensures { SearchRefusalIsTold }
{}
