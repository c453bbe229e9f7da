// The bytes of a release, read from left to right: each step gives a value, or declines by the first broken rule.
ghost use Rattle.std.specs.Prelude.{◌≡◌, ◌≤◌, true, [], IfOk, MatchResult};
ghost use Rattle.model.specs.Sets.{has};
ghost use Rattle.model.specs.Refusals.{number_of};
ghost use Rattle.form.specs.Contents.{Contents};
ghost use Rattle.form.specs.Got.{stop};
ghost use Rattle.form.specs.Reading.{byte, two_bytes, number, number_from, pair_from, fits as a_pair_fits, ended};
ghost use Rattle.reading.specs.Giving.{Gives, byte_of};

use model::bits::has_bit;
use model::decline::Decline;

#[derive(Drop)]
pub(crate) struct Reader<'a> {
    rest: &'a [u8],
}

// Whether u and v are two different records, and the pair does not come before `low`.
fn fits(records: u64, low: (u8, u8), u: u8, v: u8) -> bool
    ensures { result ≡ a_pair_fits (has records) low.0 low.1 u v }
{
    has_bit(records, u as usize) && has_bit(records, v as usize) && u != v && low <= (u, v)
}

impl<'a> Reader<'a> {
    pub(crate) fn new(bytes: &'a [u8]) -> Reader<'a>
        ensures { result.rest.now ≡ bytes.now }
    {
        Reader { rest: bytes }
    }

    pub(crate) fn byte(&mut self) -> Result<u8, Decline>
        ensures { Gives (byte self.old.rest.now) self.new.rest.now result }
    {
        let (first, rest) = self.rest.split_first().ok_or(Decline::MissingByte)?;
        self.rest = rest;
        Ok(*first)
    }

    // A byte that must be k.
    pub(crate) fn byte_of(&mut self, k: u8) -> Result<u8, Decline>
        ensures gives { Gives (byte_of k self.old.rest.now) self.new.rest.now result }
        ensures same { IfOk result (λ n. n ≡ k) }
    {
        let n = self.byte()?;
        if n == k {
            Ok(n)
        } else {
            Err(Decline::BrokenForm)
        }
    }

    // A number of two bytes, the low one first.
    pub(crate) fn two_bytes(&mut self) -> Result<u16, Decline>
        ensures { Gives (two_bytes self.old.rest.now) self.new.rest.now result }
    {
        let low = self.byte()?;
        let high = self.byte()?;
        Ok(u16::from_le_bytes([low, high]))
    }

    // The number of a record.
    pub(crate) fn number(&mut self) -> Result<u8, Decline>
        ensures { Gives (number self.old.rest.now) self.new.rest.now result }
    {
        let u = self.byte()?;
        if u <= 63 {
            Ok(u)
        } else {
            Err(Decline::BrokenForm)
        }
    }

    // The number of a record that is at least `low`.
    pub(crate) fn number_from(&mut self, low: u8) -> Result<u8, Decline>
        ensures gives { Gives (number_from low self.old.rest.now) self.new.rest.now result }
        ensures between { IfOk result (λ u. (low ≤ u) × (u ≤ 63)) }
    {
        let u = self.byte()?;
        if (low..=63).contains(&u) {
            Ok(u)
        } else {
            Err(Decline::BrokenForm)
        }
    }

    // Two records as a pair that does not come before `low`, judged whole.
    pub(crate) fn pair_from(&mut self, records: u64, low: (u8, u8)) -> Result<(u8, u8), Decline>
        ensures gives { Gives (pair_from (has records) low self.old.rest.now) self.new.rest.now result }
        ensures fits { IfOk result (λ p. a_pair_fits (has records) low.0 low.1 p.0 p.1 ≡ true) }
    {
        let u = self.byte()?;
        let v = self.byte()?;
        if fits(records, low, u, v) {
            Ok((u, v))
        } else {
            Err(Decline::BrokenForm)
        }
    }

    // Nothing may be left.
    pub(crate) fn end(self) -> Result<(), Decline>
        ensures { MatchResult result (λ _. self.entry.rest.now ≡ []) (λ d. (c : Contents) → ended c self.entry.rest.now ≡ stop (number_of d)) }
    {
        if self.rest.is_empty() {
            Ok(())
        } else {
            Err(Decline::BrokenForm)
        }
    }
}
