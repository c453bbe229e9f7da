// An answer in numbers, as a program in another language reads it.
ghost use Rattle.std.specs.Prelude.{◌≡◌, ℕ, ◌<◌, ◌≤◌, ℤ, pos, length, slice_index_or};
ghost use Rattle.bridge.specs.Answers.{noted};
ghost use Rattle.bridge.specs.Questions.{whole_told, graded_told};
ghost use Rattle.bridge.specs.ToldLaws.{nothing_told};

use grading::kinds::Kind;
use model::decline::Decline;
use scale::pair::Pair;
use scale::unit::Unit;
use scale::whole::Whole;

// The number of its refusal, 0 where it is taken; the grades, a strict one a, b as 128*a + b; and of a least ratio the marks and hops.
#[repr(C)]
#[derive(Drop)]
pub struct Answer {
    pub grades: [i64; 64],
    pub marks: u8,
    pub hops: u8,
    pub number: u8,
}

// A kind of grading whose grades go back as one number each.
pub(crate) trait Told: Kind {
    // the numbers by which a value is told
    ghost tells: { Self → ℤ → Type 0 };

    fn number(self) -> i64
        ensures { tells self result };

    // nothing is told by 0 alone
    ghost naught: { (z : ℤ) → tells Self.nothing z → z ≡ pos 0 };
}

impl Told for Whole {
    ghost tells = { whole_told };

    ghost naught = { λ z told. told };

    fn number(self) -> i64 {
        self.value
    }
}

// A strict grade a, b is 128*a + b in parts of 128. Both can be read back from that, since b lies from -64 to 0. No grade saturates: a is
// at most 64,000,000 in size.
impl Told for Pair<Whole, Unit> {
    ghost tells = { graded_told };

    ghost naught = { nothing_told };

    fn number(self) -> i64 {
        self.first
            .value
            .saturating_mul(128)
            .saturating_add(self.second.value)
    }
}

// The numbers of the first 64 grades.
pub(crate) fn numbers<V: Told>(grades: &[V]) -> [i64; 64]
    requires { 64 ≤ length grades.now }
    ensures { (u : ℕ) → u < 64 → V.tells (slice_index_or grades.now u V.nothing) (slice_index_or result u (pos 0)) }
{
    let mut numbers = [0; 64];
    for (u, number) in numbers.iter_mut().enumerate() {
        *number = grades[u].number();
    }
    numbers
}

impl Answer {
    pub(crate) fn of(given: Result<(u8, u8), Decline>, grades: [i64; 64]) -> Answer
        ensures { result ≡ noted grades given }
    {
        let (marks, hops, number) = match given {
            Ok((marks, hops)) => (marks, hops, 0),
            Err(decline) => (0, 0, decline.number()),
        };
        Answer {
            grades,
            marks,
            hops,
            number,
        }
    }
}
