// What an answer lists: the standing records of a sheet with their grades, rising; and a ring.
ghost use Rattle.std.specs.Prelude.{◌≡◌, ℕ, ◌<◌, ◌≤◌, true, length, slice_index_or};
ghost use Rattle.sheet.specs.Views.{view_of};
ghost use Rattle.archive.specs.Entries.{entries_below};

use crate::answer::Graded;
use crate::shown::Shown;
use arrayvec::ArrayVec;
use sheet::meaning::Sheet;

// Whether u is part of a grading.
fn stands<S: Sheet>(sheet: &S, u: u8) -> bool
    ensures { result ≡ (view_of S.Sheet sheet.now).stands u }
{
    sheet.state(u).stands()
}

// The standing records, each with its grade as an answer shows it.
pub fn list_grades<S: Sheet, G: Copy + Default, V: Shown<G>>(
    sheet: &S,
    grades: &[V],
) -> ArrayVec<Graded<G>, 64>
    requires enough { 64 ≤ length grades.now }
    requires fit { (u : ℕ) → u < 64 → (view_of S.Sheet sheet.now).stands u ≡ true → V.fits (slice_index_or grades.now u V.Scale.nothing) }
    ensures { result.items ≡ entries_below (view_of S.Sheet sheet.now) (λ u. V.shown (slice_index_or grades.now u V.Scale.nothing)) 64 }
{
    let mut list = ArrayVec::new();
    for (u, grade) in grades[..64].iter().enumerate() {
        if stands(sheet, u as u8) {
            list.push(Graded {
                record: u as u8,
                grade: grade.shown(),
            });
        }
    }
    list
}

// A ring has at most 64 records.
pub fn list_ring(ring: &[u8]) -> ArrayVec<u8, 64>
    requires { length ring.now ≤ 64 }
    ensures { result.items ≡ ring.now }
{
    let mut list = ArrayVec::new();
    let _ = list.try_extend_from_slice(ring);
    list
}
