// What an answer lists, and its text: records, grades, and records with their grades.
ghost use Rattle.std.specs.Prelude.{ℕ, ◌+◌, ◌*◌, ◌≤◌, List, length};
ghost use Rattle.std.specs.Fmt.{signed_decimal};
ghost use Rattle.std.specs.List.{flat_map};
ghost use Rattle.script.specs.Numbers.{field};
ghost use Rattle.script.specs.Puts.{PutAt};
ghost use Rattle.script.specs.Text.{strict_text, entry_text};

use crate::write::{put_number, put_text};
use archive::answer::{Graded, StrictGrade};

// What has a text.
pub trait Spelled: Copy {
    ghost text: { Self → List ℕ };

    // no text has more bytes
    ghost width: { ℕ };

    fn put(self, out: &mut [u8], at: usize) -> usize
        requires { at + width ≤ length out.old }
        ensures { PutAt width (text self) at out.old out.new result };
}

// A record is a space and its number.
impl Spelled for u8 {
    ghost text = { field };

    ghost width = { 4 };

    #[tactic(auto, using(crate::proofs::Puts::put_both, crate::proofs::Puts::put_long))]
    fn put(self, out: &mut [u8], at: usize) -> usize {
        let at = put_text(out, at, b" ");
        put_number(out, at, self)
    }
}

// A grade that is a number.
impl Spelled for i64 {
    ghost text = { signed_decimal };

    ghost width = { 20 };

    fn put(self, out: &mut [u8], at: usize) -> usize {
        put_number(out, at, self)
    }
}

impl Spelled for StrictGrade {
    ghost text = { strict_text };

    ghost width = { 25 };

    #[tactic(auto, using(crate::proofs::Puts::put_both, crate::proofs::Puts::put_long))]
    fn put(self, out: &mut [u8], at: usize) -> usize {
        let at = put_number(out, at, self.a);
        let at = put_text(out, at, b"/");
        put_number(out, at, self.b)
    }
}

impl<G: Spelled> Spelled for Graded<G> {
    ghost text = { entry_text G.text };

    ghost width = { 5 + G.width };

    #[tactic(auto, using(crate::proofs::Puts::put_both, crate::proofs::Puts::put_long))]
    fn put(self, out: &mut [u8], at: usize) -> usize {
        let at = self.record.put(out, at);
        let at = put_text(out, at, b":");
        self.grade.put(out, at)
    }
}

// All of them, in their order.
pub fn put_all<T: Spelled>(out: &mut [u8], at: usize, items: &[T]) -> usize
    requires { at + length items.now * T.width ≤ length out.old }
    ensures { PutAt (length items.now * T.width) (flat_map T.text items.now) at out.old out.new result }
{
    let mut at = at;
    for item in items {
        at = item.put(out, at);
    }
    at
}
