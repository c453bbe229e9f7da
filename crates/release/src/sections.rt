// The sections of a release, from the sheet's answers.
ghost use Rattle.std.specs.Prelude.{◌+◌, ◌≤◌, length, unsigned_abs};
ghost use Rattle.std.specs.List.{flat_map};
ghost use Rattle.arrayvec.specs.ArrayVec.{array_vec_len};
ghost use Rattle.form.specs.Laid.{of_pair, of_two};
ghost use Rattle.sheet.specs.Views.{view_of};
ghost use Rattle.release.specs.Drafts.{Adds, DraftOf};
ghost use Rattle.form.specs.Sections.{records_below, marks_from, marks_below, depths_below, finding};
ghost use Rattle.release.specs.Grades.{grade_number, Low, Lows};

use crate::count::{count_marks, count_records};
use crate::draft::{Draft, put_two};
use scale::whole::Whole;
use sheet::meaning::Sheet;

fn put_records<S: Sheet>(draft: &mut Draft, sheet: &S)
    requires { array_vec_len draft.old + 64 ≤ 8453 }
    ensures adds { Adds draft.old (records_below (view_of S.Sheet sheet.now) 64) draft.new }
    ensures within { array_vec_len draft.new ≤ array_vec_len draft.old + 64 }
{
    for u in 0..64u8 {
        if sheet.state(u).stands() {
            draft.push(u);
        }
    }
}

// The marks from u.
fn put_marks_from<S: Sheet>(draft: &mut Draft, sheet: &S, u: u8)
    requires { array_vec_len draft.old + 128 ≤ 8453 }
    ensures adds { Adds draft.old (flat_map of_pair (marks_from (view_of S.Sheet sheet.now) u 64)) draft.new }
    ensures within { array_vec_len draft.new ≤ array_vec_len draft.old + 128 }
{
    for v in 0..64u8 {
        if sheet.marked(u, v) {
            draft.push(u);
            draft.push(v);
        }
    }
}

fn put_marks<S: Sheet>(draft: &mut Draft, sheet: &S)
    requires { array_vec_len draft.old + 8192 ≤ 8453 }
    ensures adds { Adds draft.old (flat_map of_pair (marks_below (view_of S.Sheet sheet.now) 64)) draft.new }
    ensures within { array_vec_len draft.new ≤ array_vec_len draft.old + 8192 }
{
    for u in 0..64u8 {
        put_marks_from(draft, sheet, u);
    }
}

// Minus a grade: no grade of a least ratio is above 0, or further than 4,096 below it.
fn put_depth(draft: &mut Draft, grade: Whole)
    requires room { array_vec_len draft.old + 2 ≤ 8453 }
    requires low { Low grade.value }
    ensures { Adds draft.old (of_two (unsigned_abs grade.value)) draft.new }
{
    put_two(draft, (-grade.value) as u16);
}

// Minus the grades of the standing records. That these are short is asked in clauses: it is known of what the least ratio gives, and a
// type for that would be for this call alone.
fn put_depths<S: Sheet>(draft: &mut Draft, sheet: &S, grades: &[Whole])
    requires room { array_vec_len draft.old + 128 ≤ 8453 }
    requires grades { 64 ≤ length grades.now }
    requires low { Lows (view_of S.Sheet sheet.now) grades.now }
    ensures adds { Adds draft.old (flat_map of_two (depths_below (view_of S.Sheet sheet.now) (grade_number grades.now) 64)) draft.new }
    ensures within { array_vec_len draft.new ≤ array_vec_len draft.old + 128 }
{
    for (u, grade) in grades[..64].iter().enumerate() {
        if sheet.state(u as u8).stands() {
            put_depth(draft, *grade);
        }
    }
}

fn put_ring(draft: &mut Draft, ring: &[u8])
    requires { array_vec_len draft.old + length ring.now ≤ 8453 }
    ensures { Adds draft.old ring.now draft.new }
{
    draft.try_extend_from_slice(ring).unwrap();
}

// The whole release: four sections, each after its count.
pub(crate) fn lay_out<S: Sheet>(sheet: &S, grades: &[Whole], ring: &[u8]) -> Draft
    requires ring { length ring.now ≤ 64 }
    requires grades { 64 ≤ length grades.now }
    requires low { Lows (view_of S.Sheet sheet.now) grades.now }
    ensures { DraftOf (finding (view_of S.Sheet sheet.now) (grade_number grades.now) ring.now) result }
{
    let records = count_records(sheet);
    let mut draft = Draft::new();
    draft.push(records);
    put_records(&mut draft, sheet);
    put_two(&mut draft, count_marks(sheet));
    put_marks(&mut draft, sheet);
    draft.push(records);
    put_depths(&mut draft, sheet, grades);
    draft.push(ring.len() as u8);
    put_ring(&mut draft, ring);
    draft
}
