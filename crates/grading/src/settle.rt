// Rounds of relaxation, until one changes nothing or a ring shows that none ever will.
ghost use Rattle.std.specs.Prelude.{◌≡◌, length, MatchResult};
ghost use Rattle.paths.specs.Descents.{Loop};
ghost use Rattle.grading.specs.Problems.{at, problem_steps, Costs};
ghost use Rattle.grading.specs.Settling.{Settled};

use crate::descent::{Span, find_repeat, walk_down};
use crate::problem::Problem;
use crate::relax::{clear, fallen, relax_round};
use model::bits::lowest;
use scale::scale::Scale;

// Ok: `old` meets every step. Err: where on the walk there is a ring whose sum is below nothing.
pub fn settle<V: Scale>(
    problem: &Problem<V>,
    old: &mut [V],
    new: &mut [V],
    next: &mut [[u8; 64]; 64],
    walk: &mut [u8; 65],
) -> Result<(), Span>
    requires { (length old.old ≡ 64) × (length new.old ≡ 64) × Costs V.Scale problem.now }
    ensures { MatchResult result (λ _. Settled V.Scale (problem_steps problem.now) (at V.Scale old.new)) (λ s. Loop V.Scale (problem_steps problem.now) walk.new s.low s.high) }
{
    clear(old);
    let mut fell = u64::MAX;
    // k counts the rounds: the rows up to k are read in the round that writes row k
    for k in 0..64 {
        relax_round(problem, fell, old, new, &mut next[k]);
        fell = fallen(old, new);
        let Some(u) = lowest(fell) else {
            return Ok(());
        };
        walk_down(problem, next, k, u, walk);
        if let Some(span) = find_repeat(walk, k + 1) {
            return Err(span);
        }
        old.copy_from_slice(new);
    }
    unreachable()
}
