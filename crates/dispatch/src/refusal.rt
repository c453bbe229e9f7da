// Why there is no release.
ghost use Rattle.std.specs.Prelude.{◌≡◌};
ghost use Rattle.dispatch.specs.declared.refusal.Refusal.TheVariants.{Declined, NoHeap};

use model::decline::Decline;
use std::alloc::AllocError;

#[derive(Debug)]
pub enum Refusal {
    // by one of the numbers
    Declined(Decline),
    // the heap had no room
    NoHeap(AllocError),
}

impl From<Decline> for Refusal {
    ghost from_gives = { λ d r. r ≡ Declined d };

    fn from(decline: Decline) -> Refusal {
        Refusal::Declined(decline)
    }
}

impl From<AllocError> for Refusal {
    ghost from_gives = { λ e r. r ≡ NoHeap e };

    fn from(error: AllocError) -> Refusal {
        Refusal::NoHeap(error)
    }
}
