// The lines of a script and their calls. A line goes up to byte 10 or to the end of the bytes, and an empty rest after the last byte 10
// is no line; a line that is of no form stands for Wrong.
ghost use Rattle.std.specs.Prelude.{◌≡◌, ◌==◌, length, MatchOption};
ghost use Rattle.script.specs.Cuts.{bare_of, FirstLine, LineCall};

use crate::parse::parse;
use archive::call::Call;

// A line without the byte 10 that ends it.
pub fn bare(line: &[u8]) -> &[u8]
    ensures { result.now ≡ bare_of line.now }
{
    match line {
        [text @ .., b'\n'] => text,
        _ => line,
    }
}

// The call of one line.
pub(crate) fn call_in(line: &[u8]) -> Call
    ensures { LineCall line.now result }
{
    parse(line).unwrap_or(Call::Wrong)
}

// Whether a byte ends its line.
fn ends_line(b: &u8) -> bool
    ensures { result ≡ (b.now == 10) }
{
    *b == b'\n'
}

// The first line with the byte 10 that ends it, if there is a line.
pub(crate) fn first_line(script: &[u8]) -> Option<&[u8]>
    ensures { MatchOption result (length script.now ≡ 0) (λ l. FirstLine script.now l.now) }
{
    script.split_inclusive(ends_line).next()
}
