// Grading on any sheet and any scale, in memory that the caller brings.
ghost use Rattle.std.specs.Prelude.{◌<◌};
ghost use Rattle.sheet.specs.Views.{view_of};
ghost use Rattle.grading.specs.Outcomes.{brought, SameLent, Grades};

use crate::memory::Memory;
use crate::read::read;
use crate::solve::solve_graph;
use model::decline::Decline;
use model::thresholds::Thresholds;
use scale::scale::Scale;
use sheet::meaning::Sheet;

// The greatest grades of what stands on the sheet, or the ring that forbids them: declines by 1, 11, 13.
pub fn grade<S: Sheet, V: Scale>(
    sheet: &S,
    thresholds: Thresholds,
    memory: &mut Memory<'_, V>,
) -> Result<(), Decline>
    ensures graded { Grades V.Scale (view_of S.Sheet sheet.now) thresholds (brought memory.old) (brought memory.new) result }
    ensures same { SameLent memory.old memory.new }
{
    if !memory.is_enough() {
        return Err(Decline::TooLittleMemory);
    }
    if !thresholds.are_allowed() {
        return Err(Decline::OutsideLimits);
    }
    solve_graph(&read(sheet), thresholds, memory)?;
    Ok(())
}
