// The least ratio and its answer, in memory that is brought.
ghost use Rattle.std.specs.Prelude.{◌≡◌, true};
ghost use Rattle.sheet.specs.Views.{view_of};
ghost use Rattle.grading.specs.Outcomes.{brought, suffices};
ghost use Rattle.archive.specs.Told.{RatioTold};

use crate::answer::Answer;
use crate::listing::{list_grades, list_ring};
use crate::refusal::refusal;
use grading::memory::Memory;
use grading::ratio::least_ratio;
use scale::whole::Whole;
use sheet::meaning::Sheet;

// In memory that is enough.
pub fn ratio_answer<S: Sheet>(sheet: &S, memory: &mut Memory<'_, Whole>) -> Answer
    requires { suffices (brought memory.old) ≡ true }
    ensures { RatioTold (view_of S.Sheet sheet.now) result }
{
    match least_ratio(sheet, memory) {
        Ok(least) => {
            let ring = list_ring(&memory.ring[..least.ring as usize]);
            let grades = list_grades(sheet, memory.grades);
            Answer::Ratio {
                marks: least.marks,
                hops: least.hops,
                ring,
                grades,
            }
        }
        Err(decline) => refusal(decline, memory.ring),
    }
}
