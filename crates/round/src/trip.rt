// Writing a release and reading back those very bytes, before anyone else does.
ghost use Rattle.std.specs.Prelude.{IfOk};
ghost use Rattle.sheet.specs.Views.{view_of};
ghost use Rattle.grading.specs.Outcomes.{brought, SameLent};
ghost use Rattle.release.specs.Writing.{Released};
ghost use Rattle.round.specs.Trips.{TellsOfFinding, ReadFrom, length_of};

use grading::memory::Memory;
use model::decline::Decline;
use reading::read::read_release;
use reading::release::Release;
use release::write::write_release;
use scale::whole::Whole;
use sheet::meaning::Sheet;

// The release of the least ratio's finding at the front of `out`, its length, and the release as it was read back from there:
// declines as the writing does, and never by the reading.
pub fn write_and_read<S: Sheet>(
    sheet: &S,
    memory: &mut Memory<'_, Whole>,
    out: &mut [u8],
) -> Result<(usize, Release), Decline>
    ensures released { Released (view_of S.Sheet sheet.now) (brought memory.old) (brought memory.new) out.old out.new (length_of result) }
    ensures read { IfOk result (λ p. TellsOfFinding (view_of S.Sheet sheet.now) (brought memory.old) (brought memory.new) p.1) }
    ensures back { IfOk result (ReadFrom out.new) }
    ensures same { SameLent memory.old memory.new }
{
    let length = write_release(sheet, memory, out)?;
    let release = read_release(&out[..length])?;
    Ok((length, release))
}
