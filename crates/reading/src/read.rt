// Reading a release.
ghost use Rattle.reading.specs.Reads.{Reads};

use crate::release::Release;
use crate::sections::read_claim;
use model::decline::Decline;

// The release that these bytes are, however many: declines by 14 or 15 at the first broken rule of the form, and then by 16 where the
// ring or the grades do not hold.
pub fn read_release(bytes: &[u8]) -> Result<Release, Decline>
    ensures { Reads bytes.now result }
{
    Release::of(read_claim(bytes)?)
}
