// A release that was read: what it tells, which holds.
ghost use Rattle.std.specs.Prelude.{◌≡◌};
ghost use Rattle.reading.specs.Told.{Drawn, Holds};
ghost use Rattle.reading.specs.Claims.{claimed_view, claimed};
ghost use Rattle.reading.specs.Props.{drawn_prop, holds_prop};

use crate::claim::Claim;
use crate::ring::{Tally, shown_ratio};
use model::decline::Decline;

#[derive(Drop)]
pub struct Release {
    claim: Claim,
    tally: Tally,
    // only two different standing records are marked
    pub ghost drawn: { Drawn (claimed_view claim) } by { drawn_prop (claimed_view claim) },
    // the ring and the grades hold
    pub ghost holds: { Holds (claimed claim tally.marks tally.hops) } by { holds_prop (claimed claim tally.marks tally.hops) },
}

impl Release {
    ghost use Rattle.std.specs.Prelude.{if◌then◌else◌, Some, None, length};
    ghost use Rattle.form.specs.Sections.{records_below};
    ghost use Rattle.reading.specs.Reads.{told_in, HoldsOrNot};

    // What is claimed, where it holds: declines by 16.
    pub(crate) fn of(claim: Claim) -> Result<Release, Decline>
        requires { Drawn (claimed_view claim) }
        ensures { HoldsOrNot (claimed claim) result }
    {
        let Some(tally) = shown_ratio(&claim) else {
            return Err(Decline::DoesNotHold);
        };
        if !claim.is_loose(tally.thresholds()) {
            return Err(Decline::DoesNotHold);
        }
        Ok(Release { claim, tally })
    }

    // Whether u is a record of it.
    pub fn has_record(&self, u: u8) -> bool
        ensures { result ≡ (told_in self.now).view.stands u }
    {
        self.claim.has_record(u)
    }

    // How many records it has.
    pub fn records(&self) -> u8
        ensures { result ≡ length (records_below (told_in self.now).view 64) }
    {
        self.claim.records.count_ones() as u8
    }

    // Whether it has the mark from u to v.
    pub fn is_marked(&self, u: u8, v: u8) -> bool
        ensures { result ≡ (told_in self.now).view.marked u v }
    {
        self.claim.is_marked(u, v)
    }

    // The grade of the record u.
    pub fn grade(&self, u: u8) -> Option<i64>
        ensures { result ≡ (if (told_in self.now).view.stands u then Some ((told_in self.now).grade u) else None) }
    {
        if self.has_record(u) {
            Some(-i64::from(self.claim.depth(u)))
        } else {
            None
        }
    }

    // The ring that shows the ratio: none where no ring has a mark.
    pub fn ring(&self) -> &[u8]
        ensures { result.now ≡ (told_in self.now).ring }
    {
        self.claim.ring.as_slice()
    }

    // The marks on that ring, or 0.
    pub fn marks(&self) -> u8
        ensures { result ≡ (told_in self.now).marks }
    {
        self.tally.marks
    }

    // The hops on that ring, or 1.
    pub fn hops(&self) -> u8
        ensures { result ≡ (told_in self.now).hops }
    {
        self.tally.hops
    }
}
