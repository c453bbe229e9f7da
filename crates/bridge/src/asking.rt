// One question, asked of a sheet so many times, in values of the kind that its grades have.
ghost use Rattle.std.specs.Prelude.{◌≡◌, ℕ, ◌<◌, ◌≤◌, true, length, slice_index_or, MatchOption};
ghost use Rattle.model.specs.Views.{View};
ghost use Rattle.sheet.specs.Views.{view_of};
ghost use Rattle.grading.specs.Outcomes.{brought, suffices, SameLent};
ghost use Rattle.bridge.specs.Answers.{Asking, Answered, Handed, Asked};

use crate::answer::{Answer, Told, numbers};
use grading::memory::Memory;
use model::decline::Decline;
use scale::scale::Scale;
use sheet::meaning::Sheet;

// What is asked in grades of a kind. Its answer has marks and hops, and grades in the memory.
pub(crate) trait Question<V: Scale>: Copy {
    // what answers it, by what stands
    ghost asking: { Self → View → Asking V };

    // in memory that is enough, where all grades are nothing
    fn asked<S: Sheet>(self, sheet: &S, memory: &mut Memory<'_, V>) -> Result<(u8, u8), Decline>
        requires room { suffices (brought memory.old) ≡ true }
        requires cleared { (u : ℕ) → u < 64 → slice_index_or memory.old.grades.now u V.nothing ≡ V.nothing }
        ensures answered { Answered (view_of S.Sheet sheet.now) V.nothing (asking self (view_of S.Sheet sheet.now)) memory.new.grades.now result }
        ensures same { SameLent memory.old memory.new };
}

fn clear<V: Scale>(values: &mut [V])
    ensures { (u : ℕ) → u < length values.old → slice_index_or values.new u V.nothing ≡ V.nothing }
{
    for value in values.iter_mut() {
        *value = V::nothing();
    }
}

// The question once, in cleared memory.
fn ask_once<S: Sheet, V: Scale, Q: Question<V>>(
    sheet: &S,
    question: Q,
    grades: &mut [V],
    values: &mut [V],
) -> Result<(u8, u8), Decline>
    requires room { (64 ≤ length grades.old) × (4160 ≤ length values.old) }
    ensures { Answered (view_of S.Sheet sheet.now) V.nothing (Q.asking question (view_of S.Sheet sheet.now)) grades.new result }
{
    clear(grades);
    clear(values);
    let mut memory = Memory {
        grades,
        ring: &mut [0; 64],
        values,
        bytes: &mut [0; 4160],
    };
    question.asked(sheet, &mut memory)
}

// So many times, each time anew. What the last time gave, with its grades.
fn ask_often<S: Sheet, V: Scale, Q: Question<V>>(
    sheet: &S,
    question: Q,
    times: u32,
    grades: &mut [V],
    values: &mut [V],
) -> Option<Result<(u8, u8), Decline>>
    requires room { (64 ≤ length grades.old) × (4160 ≤ length values.old) }
    ensures { MatchOption result (times ≡ 0) (λ given. (0 < times) × Answered (view_of S.Sheet sheet.now) V.nothing (Q.asking question (view_of S.Sheet sheet.now)) grades.new given) }
{
    let mut last = None;
    for _ in 0..times {
        last = Some(ask_once(sheet, question, grades, values));
    }
    last
}

// The last answer in numbers. Where nothing is asked, what was there is kept.
pub(crate) fn ask<S: Sheet, V: Told, Q: Question<V>>(
    sheet: &S,
    question: Q,
    times: u32,
    grades: &mut [V],
    values: &mut [V],
    answer: &mut Answer,
)
    requires room { (64 ≤ length grades.old) × (4160 ≤ length values.old) }
    ensures { Asked times (Handed (view_of S.Sheet sheet.now) V.tells (Q.asking question (view_of S.Sheet sheet.now))) answer.old answer.new }
{
    if let Some(given) = ask_often(sheet, question, times, grades, values) {
        *answer = Answer::of(given, numbers(grades));
    }
}
