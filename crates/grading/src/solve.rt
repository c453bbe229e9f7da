// A graph solved in memory that was brought: the values of its standing records, or the ring that forbids them.
ghost use Rattle.std.specs.Prelude.{◌≡◌, ◌<◌, ◌≤◌, true, length, MatchResult};
ghost use Rattle.model.specs.Limits.{within_limits};
ghost use Rattle.model.specs.Views.{View};
ghost use Rattle.model.specs.declared.thresholds.Thresholds.{Thresholds};
ghost use Rattle.paths.specs.Bests.{Best, Forbids};
ghost use Rattle.grading.specs.Graphs.{Draws};
ghost use Rattle.paths.specs.Descents.{Loop};
ghost use Rattle.grading.specs.Settling.{Settled};
ghost use Rattle.grading.specs.Problems.{at, problem_steps, Costs, Copied, Spells};
ghost use Rattle.grading.specs.Outcomes.{memory, brought, enough, suffices, PastKept, SameLent, Attempt};

use crate::descent::{Span, write_ring};
use crate::forbidden::Forbidden;
use crate::graph::Graph;
use crate::memory::Memory;
use crate::problem::Problem;
use crate::settle::settle;
use model::bits::has_bit;
use model::thresholds::Thresholds;
use scale::scale::Scale;

// Copies the values at the records of the set, and leaves all other places: so this is no copy of a slice.
fn copy_values<V: Scale>(set: u64, from: &[V], to: &mut [V])
    requires { (length from.now ≡ 64) × (64 ≤ length to.old) }
    ensures { Copied V.Scale set 64 from.now to.old to.new }
{
    for (u, value) in from.iter().enumerate() {
        if has_bit(set, u) {
            to[u] = *value;
        }
    }
}

// Settles with its rows in plain bytes: these keep their length in the proof, where an array that is taken from them does not.
fn settle_in_bytes<V: Scale>(
    problem: &Problem<V>,
    old: &mut [V],
    new: &mut [V],
    bytes: &mut [u8],
    walk: &mut [u8; 65],
) -> Result<(), Span>
    requires { (length old.old ≡ 64) × (length new.old ≡ 64) × (4096 ≤ length bytes.old) × Costs V.Scale problem.now }
    ensures { MatchResult result (λ _. Settled V.Scale (problem_steps problem.now) (at V.Scale old.new)) (λ s. Loop V.Scale (problem_steps problem.now) walk.new s.low s.high) }
{
    let Some(next) = bytes.as_chunks_mut().0.first_chunk_mut() else {
        unreachable!()
    };
    settle(problem, old, new, next, walk)
}

// The best values of the problem's view at its standing records, or a ring that forbids them. The memory comes in its parts: of a
// part that is split while it lies in the struct, the proof would lose the length.
fn solve<V: Scale>(
    problem: &Problem<V>,
    grades: &mut [V],
    ring: &mut [u8],
    values: &mut [V],
    bytes: &mut [u8],
) -> Result<(), Forbidden>
    requires room { enough (length grades.old) (length ring.old) (length values.old) (length bytes.old) ≡ true }
    requires costs { Costs V.Scale problem.now }
    ensures past { PastKept (memory grades.old ring.old values.old bytes.old) (memory grades.new ring.new values.new bytes.new) }
    ensures solved { (w : View) (t : Thresholds) → Spells V.Scale w t problem.now → Attempt w (Best V.Scale w t) V.Scale.nothing (Forbids V.Scale w t)
        (memory grades.old ring.old values.old bytes.old)
        (memory grades.new ring.new values.new bytes.new) result }
{
    // what is more than the stated size is kept
    let (values, _) = values.split_at_mut(4160);
    let (bytes, _) = bytes.split_at_mut(4160);
    let (old, rest) = values.split_at_mut(64);
    let (new, _) = rest.split_at_mut(64);
    let mut walk = [0; 65];
    match settle_in_bytes(problem, old, new, bytes, &mut walk) {
        Ok(()) => {
            copy_values(problem.graph.standing, old, grades);
            Ok(())
        }
        Err(span) => Err(Forbidden {
            ring: write_ring(&walk, span, ring),
        }),
    }
}

// The same for what a graph draws, at thresholds within the limits.
pub fn solve_graph<V: Scale>(
    graph: &Graph,
    thresholds: Thresholds,
    memory: &mut Memory<'_, V>,
) -> Result<(), Forbidden>
    requires room { suffices (brought memory.old) ≡ true }
    requires limits { within_limits thresholds ≡ true }
    ensures solved { (w : View) → Draws w graph.now → Attempt w (Best V.Scale w thresholds) V.Scale.nothing (Forbids V.Scale w thresholds)
        (brought memory.old) (brought memory.new) result }
    ensures same { SameLent memory.old memory.new }
{
    let problem = Problem {
        graph: *graph,
        mark: V::mark(thresholds),
        hop: V::hop(thresholds),
    };
    solve(
        &problem,
        memory.grades,
        memory.ring,
        memory.values,
        memory.bytes,
    )
}
