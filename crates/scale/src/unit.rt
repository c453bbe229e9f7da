// The unit scale: -1 for a mark and 0 for a hop, whatever the thresholds.
// A type beside `Whole` and not one for both: mark, hop and extent differ, and a parameter that chose them would be no shorter.
ghost use Rattle.scale.specs.Units.{of_unit, unit_plus, unit_sum, unit_less, unit_mark, unit_hop, UnitExtent};
ghost use Rattle.std.specs.Prelude.{pos};
ghost use Rattle.scale.specs.Numbers.{unit_laws};

use crate::scale::Scale;
use model::thresholds::Thresholds;

#[derive(Clone, Copy, Debug, PartialEq, Eq)]
pub struct Unit {
    pub value: i64,
}

impl Scale for Unit {
    ghost nothing = { of_unit (pos 0) };

    ghost plus = { unit_plus };

    ghost sum = { unit_sum };

    ghost less = { unit_less };

    ghost mark = { unit_mark };

    ghost hop = { unit_hop };

    ghost extent = { UnitExtent };

    ghost lawful = { unit_laws };

    fn nothing() -> Unit {
        Unit { value: 0 }
    }

    fn mark(_thresholds: Thresholds) -> Unit {
        Unit { value: -1 }
    }

    fn hop(_thresholds: Thresholds) -> Unit {
        Unit::nothing()
    }

    fn sum(self, other: Unit) -> Unit {
        Unit {
            value: self.value.saturating_add(other.value),
        }
    }

    fn less(&self, other: &Unit) -> bool {
        self.value < other.value
    }
}
