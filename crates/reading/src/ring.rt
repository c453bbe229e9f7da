// The test of a ring: different numbers, the smallest first, and a step from each to the next and from the last to the first.
ghost use Rattle.std.specs.Prelude.{◌≡◌, ◌+◌, ◌<◌, ◌≤◌, ◌&&◌, MatchOption, Some, length, nat_lt};
ghost use Rattle.model.specs.Ratios.{thresholds_at};
ghost use Rattle.model.specs.Rings.{bit};
ghost use Rattle.model.specs.Views.{marks, hops};
ghost use Rattle.reading.specs.Claims.{claimed_view};
ghost use Rattle.reading.specs.Tests.{Decides, Finds, New, Different, FirstSmallest, AllSteps, StepsCounted, BothOn, RatioShown};

use crate::claim::Claim;
use model::step::Step;
use model::thresholds::Thresholds;

// Marks and hops on a ring.
#[derive(Clone, Copy)]
pub(crate) struct Tally {
    pub(crate) marks: u8,
    pub(crate) hops: u8,
}

impl Tally {
    // With one step more.
    fn with(self, step: Step) -> Tally
        requires { (self.marks < 255) × (self.hops < 255) }
        ensures marks { result.marks ≡ self.marks + bit (marks (Some step)) }
        ensures hops { result.hops ≡ self.hops + bit (hops (Some step)) }
    {
        match step {
            Step::Mark => Tally {
                marks: self.marks + 1,
                ..self
            },
            Step::Hop => Tally {
                hops: self.hops + 1,
                ..self
            },
        }
    }

    fn has_both(self) -> bool
        ensures { result ≡ (nat_lt 0 self.marks && nat_lt 0 self.hops) }
    {
        self.marks > 0 && self.hops > 0
    }

    // A ring has a greater ratio just where it forbids a loose grading at these.
    pub(crate) fn thresholds(self) -> Thresholds
        ensures { result ≡ thresholds_at self.marks self.hops }
    {
        Thresholds {
            t1: u32::from(self.hops),
            t2: u32::from(self.marks),
        }
    }
}

// The steps from each record to the next, and from the last to the first: None where no step leads there.
fn count_steps(claim: &Claim, ring: &[u8]) -> Option<Tally>
    requires { length ring.now ≤ 255 }
    ensures { MatchOption result (AllSteps (claimed_view claim.now) ring.now → ⊥) (λ t. StepsCounted (claimed_view claim.now) ring.now t) }
{
    let mut tally = Tally { marks: 0, hops: 0 };
    for (i, u) in ring.iter().enumerate() {
        let v = ring[(i + 1) % ring.len()];
        tally = tally.with(claim.step(*u, v)?);
    }
    Some(tally)
}

// Whether the number at the place i is none of those before it.
fn is_new(ring: &[u8], i: usize) -> bool
    requires { i < length ring.now }
    ensures { Decides result (New ring.now i) }
{
    !ring[..i].contains(&ring[i])
}

fn are_different(ring: &[u8]) -> bool
    ensures { Decides result (Different ring.now) }
{
    (0..ring.len()).all(|i| is_new(ring, i))
}

fn starts_smallest(ring: &[u8]) -> bool
    ensures { Decides result (FirstSmallest ring.now) }
{
    ring.iter().all(|u| ring[0] <= *u)
}

// The marks and hops of a ring that has both: None where the numbers are none such.
fn count_ring(claim: &Claim, ring: &[u8]) -> Option<Tally>
    requires { length ring.now ≤ 255 }
    ensures { Finds result (BothOn (claimed_view claim.now) ring.now) }
{
    if ring.len() < 2 || !are_different(ring) || !starts_smallest(ring) {
        return None;
    }
    let tally = count_steps(claim, ring)?;
    if tally.has_both() { Some(tally) } else { None }
}

// The ratio that the ring shows, which is 0 to 1 where it is empty: None where it shows none, or its ratio has no hop.
pub(crate) fn shown_ratio(claim: &Claim) -> Option<Tally>
    ensures { Finds result (RatioShown (claimed_view claim.now) claim.now.ring.items) }
{
    if claim.ring.is_empty() {
        Some(Tally { marks: 0, hops: 1 })
    } else {
        count_ring(claim, claim.ring.as_slice())
    }
}
