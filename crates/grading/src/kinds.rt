// The kinds of grading that are told in whole numbers: loose on the whole scale, strict on the pair of whole and unit, and unit
// grading on the unit scale. Memory and refusals are those of grade.
ghost use Rattle.std.specs.Prelude.{◌≡◌, ℕ, List};
ghost use Rattle.model.specs.declared.thresholds.Thresholds.{Thresholds};
ghost use Rattle.model.specs.Views.{View};
ghost use Rattle.sheet.specs.Views.{view_of};
ghost use Rattle.paths.specs.Bests.{Best, Forbids};
ghost use Rattle.grading.specs.Outcomes.{brought, SameLent, Outcome};
ghost use Rattle.grading.specs.Kinds.{scale_of, loose_asked, strict_asked, unit_asked, loose_forbidden, strict_forbidden, unit_forbidden};
ghost use Rattle.grading.specs.KindLaws.{loose_given, loose_shown, strict_given, strict_shown, unit_given, unit_shown};

use crate::grade::grade;
use crate::memory::Memory;
use model::decline::Decline;
use model::thresholds::Thresholds;
use scale::pair::Pair;
use scale::scale::Scale;
use scale::unit::Unit;
use scale::whole::Whole;
use sheet::meaning::Sheet;

// A scale whose best values are grades in whole numbers.
pub trait Kind: Scale {
    // the grades that are given
    ghost asked: { View → Thresholds → (ℕ → Self) → Type 0 };

    // the rings that forbid such grades
    ghost forbids: { View → Thresholds → List ℕ → Type 0 };

    ghost given: { (w : View) (t : Thresholds) (g : ℕ → Self) → Best (scale_of Self.nothing Self.plus Self.sum Self.less Self.mark Self.hop Self.extent) w t g → asked w t g };

    ghost shown: { (w : View) (t : Thresholds) (xs : List ℕ) → Forbids (scale_of Self.nothing Self.plus Self.sum Self.less Self.mark Self.hop Self.extent) w t xs → forbids w t xs };
}

// Loose: the highest grading to the denominator 1 without a grade above 0.
impl Kind for Whole {
    ghost asked = { loose_asked };

    ghost forbids = { loose_forbidden };

    ghost given = { loose_given };

    ghost shown = { loose_shown };
}

// Strict: the greatest pairs a, b that stand for a strict grading 128·a + b to the denominator 128.
impl Kind for Pair<Whole, Unit> {
    ghost asked = { strict_asked };

    ghost forbids = { strict_forbidden };

    ghost given = { strict_given };

    ghost shown = { strict_shown };
}

// Unit: the highest grading in which every mark leads up by at least 1 and every hop not at all. It declines by 11 as every grading
// does, and its grades are those of t1 = 1 and t2 = 0, whatever allowed thresholds come.
impl Kind for Unit {
    ghost asked = { unit_asked };

    ghost forbids = { unit_forbidden };

    ghost given = { unit_given };

    ghost shown = { unit_shown };
}

// Grading of a kind: the grades that it asks for, or a ring that forbids them. Declines by 1, 11, 13.
pub fn graded<S: Sheet, V: Kind>(
    sheet: &S,
    thresholds: Thresholds,
    memory: &mut Memory<'_, V>,
) -> Result<(), Decline>
    ensures graded { Outcome (view_of S.Sheet sheet.now) thresholds (V.asked (view_of S.Sheet sheet.now) thresholds)
        V.nothing (V.forbids (view_of S.Sheet sheet.now) thresholds) (brought memory.old) (brought memory.new) result }
    ensures same { SameLent memory.old memory.new }
{
    grade(sheet, thresholds, memory)
}
