// The marks and the hops of a ring, counted on the graph.
ghost use Rattle.std.specs.Prelude.{◌≡◌, ℕ, ◌+◌, ◌<◌, ◌≤◌, length, slice_index};
ghost use Rattle.model.specs.Views.{View};
ghost use Rattle.model.specs.Rings.{bit};
ghost use Rattle.grading.specs.Graphs.{graph_marks, graph_hops, Draws};
ghost use Rattle.grading.specs.Counts.{Counted};

use crate::graph::Graph;

#[derive(Clone, Copy)]
pub struct Tally {
    pub marks: u8,
    pub hops: u8,
}

// The counts so far and the step from u to v, which is a mark or a hop.
fn add_step(graph: &Graph, u: usize, v: usize, tally: Tally) -> Tally
    requires { (u < 64) × (v < 64) × (tally.marks < 64) × (tally.hops < 64) }
    ensures marks { result.marks ≡ tally.marks + bit (graph_marks graph.now u v) }
    ensures hops { result.hops ≡ tally.hops + bit (graph_hops graph.now u v) }
{
    Tally {
        marks: tally.marks + u8::from(graph.has_mark(u, v)),
        hops: tally.hops + u8::from(graph.has_hop(u, v)),
    }
}

// Counts the steps from each record of the ring to the next, and from the last to the first.
pub fn count_steps(graph: &Graph, ring: &[u8]) -> Tally
    requires { (length ring.now ≤ 64) × ((i : ℕ) → i < length ring.now → slice_index ring.now i < 64) }
    ensures few { (result.marks ≤ 64) × (result.hops ≤ 64) }
    ensures counted { (w : View) → Draws w graph.now → Counted w ring.now (length ring.now) result }
{
    let mut all = Tally { marks: 0, hops: 0 };
    // not the zip with the ring's cycle from 1 on: the proof did not close
    for (i, u) in ring.iter().enumerate() {
        let v = ring[(i + 1) % ring.len()];
        all = add_step(graph, *u as usize, v as usize, all);
    }
    all
}
