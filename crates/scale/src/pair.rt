// The pair of any two scales: it adds part by part, and the first part decides unless the two are equal.
ghost use Rattle.scale.specs.Pairs.{both, pair_plus, pair_less, pair_of, PairExtent};
ghost use Rattle.scale.specs.PairLaws.{pair_laws};

use crate::scale::Scale;
use model::thresholds::Thresholds;

#[derive(Clone, Copy, Debug, PartialEq, Eq)]
pub struct Pair<X, Y> {
    pub first: X,
    pub second: Y,
}

impl<X: Scale, Y: Scale> Scale for Pair<X, Y> {
    ghost nothing = { both X.Scale.nothing Y.Scale.nothing };

    ghost plus = { pair_plus X.Scale.plus Y.Scale.plus };

    ghost sum = { pair_plus X.Scale.sum Y.Scale.sum };

    ghost less = { pair_less X.Scale.less Y.Scale.less };

    ghost mark = { pair_of X.Scale.mark Y.Scale.mark };

    ghost hop = { pair_of X.Scale.hop Y.Scale.hop };

    ghost extent = { PairExtent X.Scale.extent Y.Scale.extent };

    ghost lawful = { pair_laws X.Scale.lawful Y.Scale.lawful };

    fn nothing() -> Pair<X, Y> {
        Pair {
            first: X::nothing(),
            second: Y::nothing(),
        }
    }

    fn mark(thresholds: Thresholds) -> Pair<X, Y> {
        Pair {
            first: X::mark(thresholds),
            second: Y::mark(thresholds),
        }
    }

    fn hop(thresholds: Thresholds) -> Pair<X, Y> {
        Pair {
            first: X::hop(thresholds),
            second: Y::hop(thresholds),
        }
    }

    fn sum(self, other: Pair<X, Y>) -> Pair<X, Y> {
        Pair {
            first: self.first.sum(other.first),
            second: self.second.sum(other.second),
        }
    }

    fn less(&self, other: &Pair<X, Y>) -> bool {
        if self.first.less(&other.first) {
            true
        } else if other.first.less(&self.first) {
            false
        } else {
            self.second.less(&other.second)
        }
    }
}
