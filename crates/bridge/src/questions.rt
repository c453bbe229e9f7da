// The questions: grades of a kind, and the least ratio.
ghost use Rattle.std.specs.Prelude.{◌≡◌};
ghost use Rattle.sheet.specs.Meanings.{empty};
ghost use Rattle.sheet.specs.Views.{meaning_of};
ghost use Rattle.bridge.specs.Filled.{filled_view};
ghost use Rattle.bridge.specs.Answers.{Handed, Asked};
ghost use Rattle.bridge.specs.Questions.{asking_grades, asking_least, whole_told, LooseHanded, StrictHanded, RatioHanded};

use crate::answer::Answer;
use crate::asking::{Question, ask};
use crate::filling::filled;
use grading::kinds::{Kind, graded};
use grading::memory::Memory;
use grading::ratio::least_ratio;
use model::decline::Decline;
use model::thresholds::Thresholds;
use scale::pair::Pair;
use scale::scale::Scale;
use scale::whole::Whole;
use sheet::meaning::Sheet;

#[derive(Clone, Copy)]
struct Grading {
    thresholds: Thresholds,
}

#[derive(Clone, Copy)]
struct LeastRatio;

// Grades alone, and no marks and hops.
impl<V: Kind> Question<V> for Grading {
    ghost asking = { λ q w. asking_grades q.thresholds (V.asked w q.thresholds) (V.forbids w q.thresholds) };

    fn asked<S: Sheet>(self, sheet: &S, memory: &mut Memory<'_, V>) -> Result<(u8, u8), Decline> {
        match graded(sheet, self.thresholds, memory) {
            Ok(()) => Ok((0, 0)),
            Err(decline) => Err(decline),
        }
    }
}

impl Question<Whole> for LeastRatio {
    ghost asking = { λ q w. asking_least w };

    #[tactic(auto, unfolding(crate::specs::Questions::BestWholes))]
    fn asked<S: Sheet>(
        self,
        sheet: &S,
        memory: &mut Memory<'_, Whole>,
    ) -> Result<(u8, u8), Decline> {
        let least = least_ratio(sheet, memory)?;
        Ok((least.marks, least.hops))
    }
}

// The arrays are made where their type is known.
fn ask_in_wholes<S: Sheet + Drop, Q: Question<Whole>>(
    new: S,
    records: &[u8],
    pairs: &[[u8; 2]],
    question: Q,
    times: u32,
    answer: &mut Answer,
)
    ensures { meaning_of S.Sheet new ≡ empty (S.capacity new) → let w = filled_view (S.capacity new) records.now pairs.now in Asked times (Handed w whole_told (Q.asking question w)) answer.old answer.new }
{
    let sheet = filled(new, records, pairs);
    let mut grades = [Whole::nothing(); 64];
    let mut values = [Whole::nothing(); 4160];
    ask(&sheet, question, times, &mut grades, &mut values, answer);
}

#[tactic(auto, unfolding(crate::specs::Questions::BestWholes))]
pub(crate) fn loose<S: Sheet + Drop>(
    new: S,
    records: &[u8],
    pairs: &[[u8; 2]],
    thresholds: Thresholds,
    times: u32,
    answer: &mut Answer,
)
    ensures { meaning_of S.Sheet new ≡ empty (S.capacity new) → Asked times (LooseHanded (filled_view (S.capacity new) records.now pairs.now) thresholds) answer.old answer.new }
{
    ask_in_wholes(new, records, pairs, Grading { thresholds }, times, answer);
}

pub(crate) fn strict<S: Sheet + Drop>(
    new: S,
    records: &[u8],
    pairs: &[[u8; 2]],
    thresholds: Thresholds,
    times: u32,
    answer: &mut Answer,
)
    ensures { meaning_of S.Sheet new ≡ empty (S.capacity new) → Asked times (StrictHanded (filled_view (S.capacity new) records.now pairs.now) thresholds) answer.old answer.new }
{
    let sheet = filled(new, records, pairs);
    let mut grades = [Pair::nothing(); 64];
    let mut values = [Pair::nothing(); 4160];
    ask(
        &sheet,
        Grading { thresholds },
        times,
        &mut grades,
        &mut values,
        answer,
    );
}

pub(crate) fn ratio<S: Sheet + Drop>(
    new: S,
    records: &[u8],
    pairs: &[[u8; 2]],
    times: u32,
    answer: &mut Answer,
)
    ensures { meaning_of S.Sheet new ≡ empty (S.capacity new) → Asked times (RatioHanded (filled_view (S.capacity new) records.now pairs.now)) answer.old answer.new }
{
    ask_in_wholes(new, records, pairs, LeastRatio, times, answer);
}
