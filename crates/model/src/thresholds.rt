// The two thresholds of a grading: a mark leads up by at least t1, a hop by at most t2 either way.
ghost use Rattle.std.specs.Prelude.{◌≡◌};
ghost use Rattle.model.specs.Limits.{within_limits};

#[derive(Clone, Copy, Debug, PartialEq, Eq)]
pub struct Thresholds {
    pub t1: u32,
    pub t2: u32,
}

impl Thresholds {
    // Whether t1 is from 1 to 1,000,000 and t2 at most 1,000,000.
    pub fn are_allowed(self) -> bool
        ensures { result ≡ within_limits self }
    {
        (1..=1_000_000).contains(&self.t1) && self.t2 <= 1_000_000
    }
}
