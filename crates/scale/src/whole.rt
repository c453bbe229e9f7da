// The whole scale: signed whole numbers, -t1 for a mark and t2 for a hop.
ghost use Rattle.scale.specs.Wholes.{of_whole, whole_plus, whole_sum, whole_less, whole_mark, whole_hop, WholeExtent};
ghost use Rattle.std.specs.Prelude.{pos};
ghost use Rattle.scale.specs.Numbers.{whole_laws};

use crate::scale::Scale;
use model::thresholds::Thresholds;

#[derive(Clone, Copy, Debug, PartialEq, Eq)]
pub struct Whole {
    pub value: i64,
}

impl Scale for Whole {
    ghost nothing = { of_whole (pos 0) };

    ghost plus = { whole_plus };

    ghost sum = { whole_sum };

    ghost less = { whole_less };

    ghost mark = { whole_mark };

    ghost hop = { whole_hop };

    ghost extent = { WholeExtent };

    ghost lawful = { whole_laws };

    fn nothing() -> Whole {
        Whole { value: 0 }
    }

    fn mark(thresholds: Thresholds) -> Whole {
        Whole {
            value: -(thresholds.t1 as i64),
        }
    }

    fn hop(thresholds: Thresholds) -> Whole {
        Whole {
            value: thresholds.t2 as i64,
        }
    }

    fn sum(self, other: Whole) -> Whole {
        Whole {
            value: self.value.saturating_add(other.value),
        }
    }

    fn less(&self, other: &Whole) -> bool {
        self.value < other.value
    }
}
