// Bellman and Ford's relaxation, one round of it, on any scale.
ghost use Rattle.std.specs.Prelude.{◌≡◌, ℕ, ◌<◌, true, false, length};
ghost use Rattle.model.specs.Sets.{has};
ghost use Rattle.grading.specs.Problems.{at, problem_steps, Ready};
ghost use Rattle.grading.specs.Rising.{Rising};
ghost use Rattle.grading.specs.Relaxing.{Lowered, by_value, by_steps, Below, Quiet, Rounded, falls_at};
ghost use Rattle.grading.specs.Rows.{Collected};

use crate::collect::collect;
use crate::problem::Problem;
use crate::rising::rising;
use model::bits::{common, take_lowest, without};
use scale::scale::Scale;

// Lowers the records of the set to the value, where it is less than theirs: they are reached by v.
fn lower<V: Scale>(set: u64, value: V, v: u8, to: &mut [V], next: &mut [u8; 64])
    requires { length to.old ≡ 64 }
    ensures lowered { Lowered V.Scale (by_value set value v) to.old to.new next.old next.new }
    ensures below { (u : ℕ) → u < 64 → has set u ≡ true → V.Scale.less value (at V.Scale to.new u) ≡ false }
{
    let mut rest = set;
    while let Some(u) = take_lowest(&mut rest) {
        if value.less(&to[u]) {
            to[u] = value;
            next[u] = v;
        }
    }
}

// Relaxes all steps of one kind to the records of the order: row v of `rows` has the records that such a step to v leads from. A record that
// a step has reached is left out from then on, since the values that follow are no lower.
fn relax_kind<V: Scale>(
    cost: V,
    rows: &[u64; 64],
    order: &[u8],
    from: &[V],
    to: &mut [V],
    next: &mut [u8; 64],
)
    requires { Ready V.Scale cost from.now × Rising V.Scale from.now order.now × (length to.old ≡ 64) }
    ensures lowered { Lowered V.Scale (by_steps V.Scale cost rows.now from.now) to.old to.new next.old next.new }
    ensures below { Below V.Scale cost rows.now from.now order.now (length order.now) to.new }
{
    let mut left = u64::MAX;
    for v in order {
        let row = rows[*v as usize];
        lower(common(row, left), cost.sum(from[*v as usize]), *v, to, next);
        left = without(left, row);
    }
}

// One round: every record is relaxed from `from` to `to`, and `next` says what it is reached by. Only steps to records of `fallen` are
// looked at: all others are met already.
// Rows of values are slices: that an array of 64 values fits in memory is known of no scale, and the proof did not close.
pub fn relax_round<V: Scale>(
    problem: &Problem<V>,
    fallen: u64,
    from: &[V],
    to: &mut [V],
    next: &mut [u8; 64],
)
    requires ready { (length to.old ≡ 64) × Ready V.Scale problem.now.mark from.now × Ready V.Scale problem.now.hop from.now }
    requires quiet { Quiet V.Scale (problem_steps problem.now) fallen (at V.Scale from.now) }
    ensures { Rounded V.Scale (problem_steps problem.now) (at V.Scale from.now) to.new next.new }
{
    to.copy_from_slice(from);
    let order = rising(fallen, from);
    relax_kind(problem.mark, &problem.graph.marks, &order, from, to, next);
    relax_kind(problem.hop, &problem.graph.hops, &order, from, to, next);
}

pub fn clear<V: Scale>(row: &mut [V])
    ensures { (u : ℕ) → u < length row.old → at V.Scale row.new u ≡ V.Scale.nothing }
{
    // not `fill`, which asks that a clone cannot fail: no scale says so
    for x in row.iter_mut() {
        *x = V::nothing();
    }
}

fn falls<V: Scale>(old: &[V], new: &[V], u: usize) -> bool
    requires { (length old.now ≡ 64) × (length new.now ≡ 64) × (u < 64) }
    ensures { result ≡ falls_at V.Scale old.now new.now u }
{
    new[u].less(&old[u])
}

// The records at which `new` is below `old`.
pub fn fallen<V: Scale>(old: &[V], new: &[V]) -> u64
    requires { (length old.now ≡ 64) × (length new.now ≡ 64) }
    ensures { Collected (falls_at V.Scale old.now new.now) 64 result }
{
    collect(|u| falls(old, new, u))
}
