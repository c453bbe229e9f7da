// The call of one line. A line is a letter and then its numbers, each after exactly one space and of one to seven decimal
// digits without leading zeros (0 itself is "0"), and nothing else; so it never has more than 17 bytes.
ghost use Rattle.std.specs.Prelude.{◌≡◌, MatchOption};
ghost use Rattle.script.specs.Numbers.{Field, NoField};
ghost use Rattle.script.specs.Cuts.{LastAt, NoneAt};
ghost use Rattle.script.specs.Lines.{clip as clipped, Fields, NoFields, RecordField, RecordFields, ThresholdFields, IsLine, NoLine};

use crate::number::number_in;
use archive::call::Call;
use model::thresholds::Thresholds;

// A record number as a call holds it: no number above 63 is a record, so whatever is above 255 becomes 255 and is
// declined alike.
fn clip(n: u32) -> u8
    ensures { result ≡ clipped n }
{
    u8::try_from(n).unwrap_or(u8::MAX)
}

// A space and a number, and nothing more.
fn one(bytes: &[u8]) -> Option<u32>
    ensures { MatchOption result (NoField bytes.now) (Field bytes.now) }
{
    match bytes {
        [b' ', digits @ ..] => number_in(digits),
        _ => None,
    }
}

// Where the last space stands.
fn last_space(bytes: &[u8]) -> Option<usize>
    ensures { MatchOption result (NoneAt 32 bytes.now) (LastAt 32 bytes.now) }
{
    bytes.iter().rposition(|b| *b == b' ')
}

// Two of them, and nothing more.
fn two(bytes: &[u8]) -> Option<(u32, u32)>
    ensures { MatchOption result (NoFields 2 bytes.now) (λ p. Fields 2 bytes.now p.0 p.1) }
{
    let (left, right) = bytes.split_at(last_space(bytes)?);
    one(left).zip(one(right))
}

// A record, two records, and two thresholds.
fn record(bytes: &[u8]) -> Option<u8>
    ensures { MatchOption result (NoField bytes.now) (RecordField bytes.now) }
{
    Some(clip(one(bytes)?))
}

fn records(bytes: &[u8]) -> Option<(u8, u8)>
    ensures { MatchOption result (NoFields 2 bytes.now) (λ p. RecordFields bytes.now p.0 p.1) }
{
    let (u, v) = two(bytes)?;
    Some((clip(u), clip(v)))
}

fn thresholds(bytes: &[u8]) -> Option<Thresholds>
    ensures { MatchOption result (NoFields 2 bytes.now) (ThresholdFields bytes.now) }
{
    let (t1, t2) = two(bytes)?;
    Some(Thresholds { t1, t2 })
}

// The call that a line stands for: Some(c) exactly where the line is of the form for c.
#[tactic(auto, using(crate::proofs::Lettered::enter_line, crate::proofs::Lettered::mark_line, crate::proofs::Lettered::strike_line, crate::proofs::Lettered::aside_line, crate::proofs::Lettered::back_line, crate::proofs::Lettered::loose_line, crate::proofs::Lettered::strict_line, crate::proofs::Lettered::units_line, crate::proofs::Lettered::ratio_line))]
pub fn parse(line: &[u8]) -> Option<Call>
    ensures { MatchOption result (NoLine line.now) (IsLine line.now) }
{
    let (letter, rest) = line.split_first()?;
    match *letter as char {
        'e' => Some(Call::Enter(record(rest)?)),
        'm' => {
            let (u, v) = records(rest)?;
            Some(Call::Mark(u, v))
        }
        's' => {
            let (u, v) = records(rest)?;
            Some(Call::Strike(u, v))
        }
        'a' => Some(Call::SetAside(record(rest)?)),
        'b' => Some(Call::BringBack(record(rest)?)),
        'g' => Some(Call::Loose(thresholds(rest)?)),
        'h' => Some(Call::Strict(thresholds(rest)?)),
        'o' if rest.is_empty() => Some(Call::Unit),
        'r' if rest.is_empty() => Some(Call::Ratio),
        _ => None,
    }
}
