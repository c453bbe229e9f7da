// The line of an answer: "ok" or "no" and a number, a ring after "no", and the entries of a grading after "ok", with one
// space before each item and byte 10 at the end. The types of an answer leave no line longer than 2,048 bytes.
ghost use Rattle.std.specs.Prelude.{◌+◌, ◌*◌, ◌≤◌, ◌++◌, codes, length};
ghost use Rattle.std.specs.List.{flat_map};
ghost use Rattle.model.specs.Refusals.{number_of};
ghost use Rattle.script.specs.Numbers.{field};
ghost use Rattle.script.specs.Puts.{PutAt};
ghost use Rattle.script.specs.Text.{ratio_text, ring_text, text_of, Printed};

use crate::spell::{Spelled, put_all};
use crate::write::{put_number, put_text};
use archive::answer::Answer;
use model::decline::Decline;

// The entries of a grading of any kind.
fn put_grades<T: Spelled>(out: &mut [u8], at: usize, entries: &[T]) -> usize
    requires room { at + 2 + 64 * T.width ≤ length out.old }
    requires few { length entries.now ≤ 64 }
    ensures { PutAt (2 + 64 * T.width) (codes "ok" ++ flat_map T.text entries.now) at out.old out.new result }
{
    let at = put_text(out, at, b"ok");
    put_all(out, at, entries)
}

// A ring: its word and its records, and nothing where there are none.
fn put_ring(out: &mut [u8], at: usize, ring: &[u8]) -> usize
    requires room { at + 261 ≤ length out.old }
    requires few { length ring.now ≤ 64 }
    ensures { PutAt 261 (ring_text ring.now) at out.old out.new result }
{
    if ring.is_empty() {
        return at;
    }
    let at = put_text(out, at, b" ring");
    put_all(out, at, ring)
}

// A refusal's number.
fn put_decline(out: &mut [u8], at: usize, decline: Decline) -> usize
    requires { at + 6 ≤ length out.old }
    ensures { PutAt 6 (codes "no" ++ field (number_of decline)) at out.old out.new result }
{
    let at = put_text(out, at, b"no");
    decline.number().put(out, at)
}

// Marks to hops.
fn put_ratio(out: &mut [u8], at: usize, marks: u8, hops: u8) -> usize
    requires { at + 10 ≤ length out.old }
    ensures { PutAt 10 (codes "ok" ++ ratio_text marks hops) at out.old out.new result }
{
    let at = put_text(out, at, b"ok");
    let at = marks.put(out, at);
    let at = put_text(out, at, b"/");
    put_number(out, at, hops)
}

// The text of an answer.
fn put_answer(out: &mut [u8], answer: &Answer) -> usize
    requires { 2048 ≤ length out.old }
    ensures { PutAt 2047 (text_of answer.now) 0 out.old out.new result }
{
    match answer {
        Answer::Taken => put_text(out, 0, b"ok"),
        Answer::Declined(decline) => put_decline(out, 0, *decline),
        Answer::Forced(decline, ring) => {
            let at = put_decline(out, 0, *decline);
            put_ring(out, at, ring)
        }
        Answer::Wholes(entries) => put_grades(out, 0, entries),
        Answer::Pairs(entries) => put_grades(out, 0, entries),
        Answer::Units(entries) => put_grades(out, 0, entries),
        Answer::Ratio {
            marks,
            hops,
            ring,
            ..
        } => {
            let at = put_ratio(out, 0, *marks, *hops);
            put_ring(out, at, ring)
        }
    }
}

// Writes an answer's line at the front of `out` and answers its length, since the caller brings the memory. Declines by 1
// where `out` is shorter than 2,048 bytes, and for no other reason. All past the line is kept.
pub fn print(answer: &Answer, out: &mut [u8]) -> Result<usize, Decline>
    ensures { Printed answer.now out.old out.new result }
{
    if out.len() < 2048 {
        return Err(Decline::TooLittleMemory);
    }
    let end = put_answer(out, answer);
    Ok(put_text(out, end, b"\n"))
}
