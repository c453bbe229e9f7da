// Tests of numbers below 64, collected into words and rows of words.
ghost use Rattle.std.specs.Prelude.{◌≡◌, ℕ, ◌<◌, Bool};
ghost use Rattle.grading.specs.Rows.{Collected, Rows};

use model::bits::with_bit;

// The numbers below 64 that pass, as a set.
pub fn collect<F: Fn(usize) -> bool>(passes: F) -> u64
    requires { (u : ℕ) → u < 64 → F.pre passes u }
    ensures { (f : ℕ → Bool) → ((u : ℕ) (b : Bool) → u < 64 → F.post passes u b → b ≡ f u) → Collected f 64 result }
{
    let mut set = 0;
    for u in 0..64 {
        if passes(u) {
            set = with_bit(set, u);
        }
    }
    set
}

// Row u has the numbers v for which u and v pass.
pub fn rows<F: Fn(usize, usize) -> bool>(passes: F) -> [u64; 64]
    requires { (u v : ℕ) → u < 64 → v < 64 → F.pre passes u v }
    ensures { (f : ℕ → ℕ → Bool) → ((u v : ℕ) (b : Bool) → u < 64 → v < 64 → F.post passes u v b → b ≡ f u v) → Rows f result }
{
    let mut all = [0; 64];
    // not from_fn: its closure would need both clauses of this function again
    for (u, row) in all.iter_mut().enumerate() {
        *row = collect(
            |v|
                requires { F.pre passes u v }
            { passes(u, v) },
        );
    }
    all
}
