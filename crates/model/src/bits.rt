// A set of records as a word of 64 bits: bit u says whether u is in it.
ghost use Rattle.std.specs.Prelude.{◌≡◌, ℕ, ◌<◌, true, false, not, ◌&&◌, MatchOption};
ghost use Rattle.model.specs.Sets.{has, put, Lowest, Taken};

// Whether u is in the set: no number above 63 is.
#[tactic(auto, unfolding(crate::specs::Sets::has))]
pub fn has_bit(set: u64, u: usize) -> bool
    ensures { result ≡ has set u }
{
    u < 64 && (set >> u) & 1 == 1
}

// The set with u in it, or the same set where u is above 63.
#[tactic(auto, using(crate::proofs::Digits::has_set))]
pub fn with_bit(set: u64, u: usize) -> u64
    ensures below { u < 64 → has result ≡ put (has set) u true }
    ensures above { 63 < u → result ≡ set }
{
    if u < 64 { set | (1u64 << u) } else { set }
}

// The set without u.
#[tactic(auto, using(crate::proofs::Digits::has_clear, crate::proofs::Digits::put_same, crate::proofs::Digits::has_beyond, crate::proofs::Digits::clear_smaller))]
pub fn without_bit(set: u64, u: usize) -> u64
    ensures rest { has result ≡ put (has set) u false }
    ensures smaller { has set u ≡ true → result < set }
{
    if u < 64 { set & !(1u64 << u) } else { set }
}

// What is in both sets.
#[tactic(auto, using(crate::proofs::Digits::has_and))]
pub fn common(a: u64, b: u64) -> u64
    ensures { (u : ℕ) → has result u ≡ (has a u && has b u) }
{
    a & b
}

// What is in the set and not in the other.
#[tactic(auto, using(crate::proofs::Digits::has_without))]
pub fn without(set: u64, other: u64) -> u64
    ensures { (u : ℕ) → has result u ≡ (has set u && not (has other u)) }
{
    set & !other
}

// The smallest number of the set, if there is one.
pub fn lowest(set: u64) -> Option<usize>
    ensures { MatchOption result (set ≡ 0) (λ u. Lowest set u) }
{
    if set == 0 {
        None
    } else {
        Some(set.trailing_zeros() as usize)
    }
}

// Takes the smallest number out of the set, if there is one.
pub fn take_lowest(set: &mut u64) -> Option<usize>
    ensures { MatchOption result ((set.old ≡ 0) × (set.new ≡ 0)) (λ u. Taken set.old set.new u) }
{
    let u = lowest(*set)?;
    *set = without_bit(*set, u);
    Some(u)
}
