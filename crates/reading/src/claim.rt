// What the bytes of a release claim, before it is known whether it holds.
ghost use Rattle.std.specs.Prelude.{◌≡◌, ◌<◌, slice_index};
ghost use Rattle.model.specs.Sets.{has};
ghost use Rattle.model.specs.Views.{two, step};
ghost use Rattle.reading.specs.Claims.{row_marks, grade_of, claimed_view};
ghost use Rattle.reading.specs.Tests.{Decides, MeetsStep, MeetsFrom, AllMeet};

use arrayvec::ArrayVec;
use model::bits::has_bit;
use model::step::Step;
use model::thresholds::Thresholds;

#[derive(Drop)]
pub(crate) struct Claim {
    // bit u: u is a record
    pub(crate) records: u64,
    // bit v of row u: a mark leads from u to v
    pub(crate) marks: [u64; 64],
    // place u: how far below 0 the grade of the record u is
    pub(crate) depths: [u16; 64],
    pub(crate) ring: ArrayVec<u8, 255>,
}

impl Claim {
    pub(crate) fn has_record(&self, u: u8) -> bool
        ensures { result ≡ has self.now.records u }
    {
        has_bit(self.records, u as usize)
    }

    #[tactic(auto, using(crate::proofs::Rows::row_past))]
    pub(crate) fn is_marked(&self, u: u8, v: u8) -> bool
        ensures { result ≡ row_marks self.now.marks u v }
    {
        match self.marks.get(u as usize) {
            Some(row) => has_bit(*row, v as usize),
            None => false,
        }
    }

    pub(crate) fn depth(&self, u: u8) -> u16
        requires { u < 64 }
        ensures { result ≡ slice_index self.now.depths u }
    {
        self.depths[u as usize]
    }

    // Whether these are two different records.
    #[tactic(auto, unfolding(model::specs::Views::two))]
    fn are_two(&self, u: u8, v: u8) -> bool
        ensures { result ≡ two (claimed_view self.now) u v }
    {
        self.has_record(u) && self.has_record(v) && u != v
    }

    // The step from u to v, where one leads there.
    #[tactic(auto, unfolding(model::specs::Views::step))]
    pub(crate) fn step(&self, u: u8, v: u8) -> Option<Step>
        ensures { result ≡ step (claimed_view self.now) u v }
    {
        if !self.are_two(u, v) {
            None
        } else if self.is_marked(u, v) {
            Some(Step::Mark)
        } else if self.is_marked(v, u) {
            None
        } else {
            Some(Step::Hop)
        }
    }

    // Whether the grades meet the step from u to v: a mark leads up by at least t1, and a hop by at most t2 either way.
    fn meets(&self, u: u8, v: u8, thresholds: Thresholds) -> bool
        requires { (u < 64) × (v < 64) }
        ensures { Decides result (MeetsStep (claimed_view self.now) (grade_of self.now.depths) thresholds u v) }
    {
        let from = u64::from(self.depth(u));
        let to = u64::from(self.depth(v));
        match self.step(u, v) {
            Some(Step::Mark) => to + u64::from(thresholds.t1) <= from,
            Some(Step::Hop) => from.abs_diff(to) <= u64::from(thresholds.t2),
            None => true,
        }
    }

    fn meets_from(&self, u: u8, thresholds: Thresholds) -> bool
        requires { u < 64 }
        ensures { Decides result (MeetsFrom (claimed_view self.now) (grade_of self.now.depths) thresholds u) }
    {
        (0..64).all(|v| self.meets(u, v, thresholds))
    }

    // Whether the grades are a loose grading at these thresholds, to the denominator 1.
    pub(crate) fn is_loose(&self, thresholds: Thresholds) -> bool
        ensures { Decides result (AllMeet (claimed_view self.now) (grade_of self.now.depths) thresholds) }
    {
        // not all over the range, as above: the proof did not close for one within another
        for u in 0..64 {
            if !self.meets_from(u, thresholds) {
                return false;
            }
        }
        true
    }
}
