// A release while it is written: bytes put one after another into room that no release outgrows.
ghost use Rattle.std.specs.Prelude.{◌+◌, ◌≤◌};
ghost use Rattle.arrayvec.specs.ArrayVec.{array_vec_len};
ghost use Rattle.form.specs.Laid.{of_two};
ghost use Rattle.release.specs.Drafts.{Adds};

use arrayvec::ArrayVec;

// 64 records, 64 times 64 marks, 64 depths, a ring of 64, and the four counts. That there is room is asked in clauses: a push that
// could fail would have a branch that never comes.
pub(crate) type Draft = ArrayVec<u8, 8453>;

// A number of two bytes, the low one first.
pub(crate) fn put_two(draft: &mut Draft, n: u16)
    requires { array_vec_len draft.old + 2 ≤ 8453 }
    ensures { Adds draft.old (of_two n) draft.new }
{
    let [low, high] = n.to_le_bytes();
    draft.push(low);
    draft.push(high);
}
