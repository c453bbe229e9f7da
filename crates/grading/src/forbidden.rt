// A ring that forbids grades, as it comes from solving: its numbers stand in the memory that was brought.
ghost use Rattle.std.specs.Prelude.{◌≡◌};
ghost use Rattle.model.specs.declared.decline.Decline.TheVariants.{Forbidden as by_ring};

use model::decline::Decline;

// How many records the ring has.
#[derive(Clone, Copy)]
pub struct Forbidden {
    pub ring: u8,
}

impl From<Forbidden> for Decline {
    ghost from_gives = { λ f d. d ≡ by_ring f.ring };

    fn from(found: Forbidden) -> Decline {
        Decline::Forbidden { ring: found.ring }
    }
}
