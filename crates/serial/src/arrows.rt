// The graph of the committed cues, with an edge from each to those that conflicts put after it.
ghost use Rattle.history.specs.Marked.{marked};
ghost use Rattle.serial.specs.Drawn.{drawn, Adds, Draws};

use graphs::Graph;
use history::{Entry, committed_cues, conflicts, is_cue, is_marked};
use items::Item;

// Whether each cue is committed, and to which cues each has an edge: apart, as marks and rows are asked for apart.
#[derive(Clone, Copy)]
pub struct ConflictGraph {
    cues: [bool; 64],
    edges: [[bool; 64]; 64],
}

impl Graph for ConflictGraph {
    ghost numbers = { λ g n. marked g.cues n };

    ghost edges = { λ g i j. drawn g.edges i j };

    fn has(&self, n: u32) -> bool {
        is_marked(&self.cues, n)
    }

    fn edge(&self, from: u32, to: u32) -> bool {
        is_cue(from) && is_marked(&self.edges[from as usize - 1], to)
    }
}

// Draws, in the row of the cue of `x`, an edge to that of each later entry that conflicts with it, if it is marked.
fn draw_from<K: Item>(x: &Entry<K>, later: &[Entry<K>], cues: &[bool; 64], row: &mut [bool; 64])
    ensures { Adds K.Item.alike cues.now row.old row.new x.now later.now }
{
    for y in later {
        if is_marked(cues, y.cue) && !is_marked(row, y.cue) && conflicts(x, y) {
            row[y.cue as usize - 1] = true;
        }
    }
}

pub fn conflict_graph<K: Item>(entries: &[Entry<K>]) -> ConflictGraph
    ensures { Draws K.Item.alike entries.now result }
{
    let cues = committed_cues(entries);
    let mut edges = [[false; 64]; 64];
    for (p, x) in entries.iter().enumerate() {
        if is_marked(&cues, x.cue) {
            draw_from(x, &entries[p + 1..], &cues, &mut edges[x.cue as usize - 1]);
        }
    }
    ConflictGraph { cues, edges }
}
