// The opening of a script: the make of sheet that its first line names, and what follows that line.
ghost use Rattle.std.specs.Prelude.{◌≡◌, MatchOption};
ghost use Rattle.script.specs.Makes.{make_name, NoMake, Opening, NoOpening};

use crate::lines::{bare, first_line};

#[derive(Clone, Copy)]
pub enum Make {
    Bits,
    List,
}

fn make_in(line: &[u8]) -> Option<Make>
    ensures { MatchOption result (NoMake line.now) (λ m. line.now ≡ make_name m) }
{
    match line {
        b"bits" => Some(Make::Bits),
        b"list" => Some(Make::List),
        _ => None,
    }
}

pub fn opening(script: &[u8]) -> Option<(Make, &[u8])>
    ensures { MatchOption result (NoOpening script.now) (λ p. Opening script.now p.0 p.1.now) }
{
    let first = first_line(script)?;
    let make = make_in(bare(first))?;
    Some((make, &script[first.len()..]))
}
