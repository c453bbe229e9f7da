// A grading call and its answer, in memory that is brought.
ghost use Rattle.std.specs.Prelude.{◌≡◌, true};
ghost use Rattle.sheet.specs.Views.{view_of};
ghost use Rattle.grading.specs.Outcomes.{brought, suffices};
ghost use Rattle.archive.specs.Told.{LooseTold, StrictTold, UnitTold};

use crate::answer::Answer;
use crate::listing::list_grades;
use crate::refusal::refusal;
use grading::kinds::graded;
use grading::memory::Memory;
use model::thresholds::Thresholds;
use scale::pair::Pair;
use scale::unit::Unit;
use scale::whole::Whole;
use sheet::meaning::Sheet;

pub fn loose_answer<S: Sheet>(
    sheet: &S,
    thresholds: Thresholds,
    memory: &mut Memory<'_, Whole>,
) -> Answer
    requires { suffices (brought memory.old) ≡ true }
    ensures { LooseTold (view_of S.Sheet sheet.now) thresholds result }
{
    match graded(sheet, thresholds, memory) {
        Ok(()) => Answer::Wholes(list_grades(sheet, memory.grades)),
        Err(decline) => refusal(decline, memory.ring),
    }
}

pub fn strict_answer<S: Sheet>(
    sheet: &S,
    thresholds: Thresholds,
    memory: &mut Memory<'_, Pair<Whole, Unit>>,
) -> Answer
    requires { suffices (brought memory.old) ≡ true }
    ensures { StrictTold (view_of S.Sheet sheet.now) thresholds result }
{
    match graded(sheet, thresholds, memory) {
        Ok(()) => Answer::Pairs(list_grades(sheet, memory.grades)),
        Err(decline) => refusal(decline, memory.ring),
    }
}

// Unit grading takes whatever thresholds are within the limits: these are.
pub fn unit_answer<S: Sheet>(sheet: &S, memory: &mut Memory<'_, Unit>) -> Answer
    requires { suffices (brought memory.old) ≡ true }
    ensures { UnitTold (view_of S.Sheet sheet.now) result }
{
    match graded(sheet, Thresholds { t1: 1, t2: 0 }, memory) {
        Ok(()) => Answer::Units(list_grades(sheet, memory.grades)),
        Err(decline) => refusal(decline, memory.ring),
    }
}
