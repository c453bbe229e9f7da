// Numbers of one to seven decimal digits, without leading zeros.
ghost use Rattle.std.specs.Prelude.{◌≡◌, MatchOption};
ghost use Rattle.script.specs.Numbers.{leading_zero, Number, NoNumber};

// Whether the bytes begin with 0 and do not end there.
fn has_leading_zero(bytes: &[u8]) -> bool
    ensures { result ≡ leading_zero bytes.now }
{
    matches!(bytes, [b'0', _, ..])
}

// The number that bytes write, if they write one. Digits alone do: parse would take a + in front of them.
pub fn number_in(bytes: &[u8]) -> Option<u32>
    ensures { MatchOption result (NoNumber bytes.now) (Number bytes.now) }
{
    if bytes.len() > 7 || bytes.starts_with(b"+") || has_leading_zero(bytes) {
        return None;
    }
    std::str::from_utf8(bytes).ok()?.parse().ok()
}
