// What a refusal becomes as an answer: 12 and 13 come with their ring.
ghost use Rattle.std.specs.Prelude.{◌≤◌, length, take};
ghost use Rattle.model.specs.Refusals.{ring_length};
ghost use Rattle.archive.specs.Told.{Refused};

use crate::answer::Answer;
use crate::listing::list_ring;
use model::decline::Decline;

// `ring` begins with the ring that the refusal shows, if it shows one.
pub fn refusal(decline: Decline, ring: &[u8]) -> Answer
    requires there { ring_length decline ≤ length ring.now }
    requires short { ring_length decline ≤ 64 }
    ensures { Refused decline (take (ring_length decline) ring.now) result }
{
    match decline {
        Decline::Circle { ring: k } | Decline::Forbidden { ring: k } => {
            Answer::Forced(decline, list_ring(&ring[..k as usize]))
        }
        _ => Answer::Declined(decline),
    }
}
