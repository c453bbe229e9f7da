// The checks that marking and striking a pair of records share.
ghost use Rattle.std.specs.Prelude.{◌≡◌};
ghost use Rattle.model.specs.Refusals.{answer_number};
ghost use Rattle.sheet.specs.Checks.{pair_check};

use crate::state::State;
use model::decline::Decline;

// The first check that the pair of u, which is a, and v, which is b, fails.
pub fn check_pair(u: u8, v: u8, a: State, b: State) -> Result<(), Decline>
    ensures { answer_number result ≡ pair_check u v a b 0 }
{
    if u > 63 || v > 63 {
        return Err(Decline::NumberTooHigh);
    }
    if u == v {
        return Err(Decline::SameRecord);
    }
    if a.absent() || b.absent() {
        return Err(Decline::RecordAbsent);
    }
    if a.aside() || b.aside() {
        return Err(Decline::RecordAside);
    }
    Ok(())
}
