// Texts and numbers put at a place of brought bytes, and the place after them. That there is room is asked in clauses: a put that could
// fail would have a branch that never comes.
ghost use Rattle.std.specs.Prelude.{◌+◌, ◌≤◌, length};
ghost use Rattle.script.specs.Puts.{PutAt};

use itoa::{Buffer, Integer};

// A text as it is.
pub fn put_text(out: &mut [u8], at: usize, text: &[u8]) -> usize
    requires { at + length text.now ≤ length out.old }
    ensures { PutAt (length text.now) text.now at out.old out.new result }
{
    let end = at + text.len();
    out[at..end].copy_from_slice(text);
    end
}

// A number in decimal, with a minus sign in front of what is below 0.
pub fn put_number<I: Integer>(out: &mut [u8], at: usize, n: I) -> usize
    requires { at + I.MAX_STR_LEN ≤ length out.old }
    ensures { PutAt I.MAX_STR_LEN (I.text n) at out.old out.new result }
{
    put_text(out, at, Buffer::new().format(n).as_bytes())
}
