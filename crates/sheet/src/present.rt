// The records of a make that sets none aside: a word of 64 bits, bit u for the record u.
ghost use Rattle.std.specs.Prelude.{◌≡◌, true};
ghost use Rattle.model.specs.Refusals.{answer_number};
ghost use Rattle.model.specs.Sets.{has, put};
ghost use Rattle.sheet.specs.Checks.{entry_check, pair_check};
ghost use Rattle.sheet.specs.Calls.{Called};
ghost use Rattle.sheet.specs.Kept.{present_states};

use crate::pair::check_pair;
use crate::state::State;
use model::bits::{has_bit, with_bit};
use model::decline::Decline;

#[derive(Drop)]
pub struct Present {
    set: u64,
}

impl Present {
    // Every number is absent.
    pub fn none() -> Present
        ensures { result.set ≡ 0 }
    {
        Present { set: 0 }
    }

    pub fn state(&self, u: u8) -> State
        ensures { result ≡ present_states self.now.set u }
    {
        if has_bit(self.set, u as usize) {
            State::Standing
        } else {
            State::Absent
        }
    }

    // The first check that the pair of u and v fails.
    pub fn check_pair(&self, u: u8, v: u8) -> Result<(), Decline>
        ensures { answer_number result ≡ pair_check u v (present_states self.now.set u) (present_states self.now.set v) 0 }
    {
        check_pair(u, v, self.state(u), self.state(v))
    }

    // u is a record from now on.
    pub fn enter(&mut self, u: u8) -> Result<(), Decline>
        ensures { Called (entry_check u (present_states self.old.set u))
            (has self.old.set) (put (has self.old.set) u true) (has self.new.set) result }
    {
        if u > 63 {
            return Err(Decline::NumberTooHigh);
        }
        if has_bit(self.set, u as usize) {
            return Err(Decline::AlreadyStands);
        }
        self.set = with_bit(self.set, u as usize);
        Ok(())
    }
}
