// From a relaxation that did not settle to a ring: down the layers, to the record that comes twice.
ghost use Rattle.std.specs.Prelude.{◌≡◌, ℕ, ◌+◌, ◌-◌, ◌%◌, ◌<◌, ◌≤◌, length, MatchOption, slice_index};
ghost use Rattle.paths.specs.Descents.{Walked, Repeat, Written};
ghost use Rattle.grading.specs.Problems.{problem_steps};
ghost use Rattle.grading.specs.Settling.{Fallen};
ghost use Rattle.grading.specs.Rings.{Unseen, Noted, Smallest, Placed};

use crate::problem::Problem;
use model::bits::{has_bit, with_bit};
use scale::scale::Scale;

// The places of a walk of 65 at which one record stands, and all between.
#[derive(Clone, Copy)]
pub struct Span {
    pub low: usize,
    pub high: usize,
    ghost order: { low < high },
    ghost within: { high ≤ 64 },
}

// Writes the walk from `start`, at which the layer k + 1 fell, down to the layer 0, by what each layer was reached by.
pub fn walk_down<V: Scale>(
    problem: &Problem<V>,
    next: &[[u8; 64]; 64],
    k: usize,
    start: usize,
    walk: &mut [u8; 65],
)
    requires { Fallen V.Scale (problem_steps problem.now) next.now k start }
    ensures { Walked V.Scale (problem_steps problem.now) walk.new (k + 1) 0 }
{
    walk[k + 1] = start as u8;
    for t in (0..k + 1).rev() {
        walk[t] = next[t][walk[t + 1] as usize];
    }
}

// The place below `high` that has the same record. The set has the records of all these places: one that is not in it is not looked for.
fn seen_before(walk: &[u8; 65], seen: u64, high: usize) -> Option<usize>
    requires { (high < 65) × Noted walk.now high seen }
    ensures { MatchOption result (Unseen walk.now high high) (λ low. (low < high) × (slice_index walk.now high ≡ slice_index walk.now low)) }
{
    if !has_bit(seen, walk[high] as usize) {
        return None;
    }
    walk[..high].iter().position(|x| *x == walk[high])
}

// The first place, from 0 up to `top`, whose record comes at an earlier place too: between the two all records differ. There is one
// where top is 64, since 65 records below 64 cannot all differ.
pub fn find_repeat(walk: &[u8; 65], top: usize) -> Option<Span>
    requires { (top ≤ 64) × ((j : ℕ) → j ≤ top → slice_index walk.now j < 64) }
    ensures { MatchOption result (top < 64) (λ s. Repeat walk.now s.low s.high × (s.high ≤ top)) }
{
    // not find_map: the proof that no place before it was one did not close
    let mut seen = 0;
    for high in 0..=top {
        if let Some(low) = seen_before(walk, seen, high) {
            return Some(Span { low, high });
        }
        seen = with_bit(seen, walk[high] as usize);
    }
    None
}

// The place of the smallest number of the walk above span.low, up to span.high.
fn smallest(walk: &[u8; 65], span: Span) -> usize
    ensures { Smallest walk.now span.low span.high result }
{
    (span.low + 1..=span.high).min_by_key(|j| walk[*j]).unwrap()
}

// Writes the `len` numbers of the walk down from the place `high`, from the one at high - turn on.
fn write_turned(walk: &[u8; 65], high: usize, len: usize, turn: usize, ring: &mut [u8])
    requires { (turn < len) × (len ≤ high) × (high ≤ 64) × (64 ≤ length ring.old) }
    ensures places { Placed walk.now high len turn len ring.new }
    ensures kept { (i : ℕ) → len ≤ i → slice_index ring.new i ≡ slice_index ring.old i }
{
    for (i, x) in ring[..len].iter_mut().enumerate() {
        *x = walk[high - (i + turn) % len];
    }
}

// Writes the ring of the span from its smallest number on, and says how long it is.
pub fn write_ring(walk: &[u8; 65], span: Span, ring: &mut [u8]) -> u8
    requires { 64 ≤ length ring.old }
    ensures long { result ≡ span.high - span.low }
    ensures written { Written walk.now span.low span.high ring.new }
    ensures kept { (i : ℕ) → result ≤ i → slice_index ring.new i ≡ slice_index ring.old i }
{
    let len = span.high - span.low;
    let turn = span.high - smallest(walk, span);
    write_turned(walk, span.high, len, turn, ring);
    len as u8
}
