// How a program that calls a folder directly cites the theorem on such calls.
ghost use Rattle.grading.specs.Outcomes.{brought, SameLent};
ghost use Rattle.archive.specs.Direct.{EnteredAndGraded};

use grading::kinds::graded;
use grading::memory::Memory;
use layers::folder::Folder;
use model::decline::Decline;
use model::thresholds::Thresholds;
use scale::whole::Whole;
use sheet::meaning::Sheet;

// Opens a new folder over the sheet, enters u and grades, in whatever memory is brought. The folder comes back with what both calls
// gave. The contract is the theorem at just these calls; its proof names each call's own contract, and direct_upheld.
pub fn enter_and_grade<S: Sheet>(
    sheet: S,
    u: u8,
    thresholds: Thresholds,
    memory: &mut Memory<'_, Whole>,
) -> (Folder<S>, Result<(), Decline>, Result<(), Decline>)
    ensures upheld { EnteredAndGraded S.Sheet sheet u thresholds (brought memory.old) (brought memory.new) result }
    ensures same { SameLent memory.old memory.new }
{
    let mut folder = Folder::new(sheet);
    let entered = folder.enter(u);
    let given = graded(&folder, thresholds, memory);
    (folder, entered, given)
}
