// Values as answers show them: a loose or a unit grade as its number, a strict one as its two numbers.
ghost use Rattle.std.specs.Prelude.{◌≡◌};
ghost use Rattle.archive.specs.Shown.{whole_shown, unit_shown, pair_shown, Always, PartFits};

use crate::answer::StrictGrade;
use scale::pair::Pair;
use scale::scale::Scale;
use scale::unit::Unit;
use scale::whole::Whole;

// A value that an answer shows as a G. A type parameter and no associated type: a vector of fixed room of an associated type is not handed on.
pub trait Shown<G>: Scale {
    // what is shown of a value
    ghost shown: { Self → G };

    // the values that have room there
    ghost fits: { Self → Type 0 };

    fn shown(self) -> G
        requires { fits self }
        ensures { result ≡ shown self };
}

impl Shown<i64> for Whole {
    ghost shown = { whole_shown };

    ghost fits = { Always };

    fn shown(self) -> i64 {
        self.value
    }
}

impl Shown<i64> for Unit {
    ghost shown = { unit_shown };

    ghost fits = { Always };

    fn shown(self) -> i64 {
        self.value
    }
}

impl Shown<StrictGrade> for Pair<Whole, Unit> {
    ghost shown = { pair_shown };

    ghost fits = { PartFits };

    fn shown(self) -> StrictGrade {
        StrictGrade {
            a: self.first.value,
            b: self.second.value as i8,
        }
    }
}
