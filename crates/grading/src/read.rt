// A graph read once from a sheet of any make.
ghost use Rattle.std.specs.Prelude.{◌≡◌, ◌<◌};
ghost use Rattle.model.specs.Views.{is_mark};
ghost use Rattle.sheet.specs.Views.{view_of};
ghost use Rattle.grading.specs.Rows.{Collected, Rows, both_in, unmarked_in, unmarked_from};
ghost use Rattle.grading.specs.Graphs.{Draws};

use crate::collect::{collect, rows};
use crate::graph::Graph;
use model::bits::has_bit;
use sheet::meaning::Sheet;

fn standing_of<S: Sheet>(sheet: &S) -> u64
    ensures { Collected (view_of S.Sheet sheet.now).stands 64 result }
{
    collect(|u| sheet.state(u as u8).stands())
}

// Two different records, and both are in the set.
fn both(standing: u64, u: usize, v: usize) -> bool
    ensures { result ≡ both_in standing u v }
{
    has_bit(standing, u) & (has_bit(standing, v) & !(u == v))
}

fn ask_mark<S: Sheet>(sheet: &S, u: usize, v: usize) -> bool
    requires { (u < 64) × (v < 64) }
    ensures { result ≡ S.Sheet.marks sheet.now u v }
{
    sheet.marked(u as u8, v as u8)
}

// Whether a mark leads from u to v. The sheet is asked of two standing records alone. That `standing` is what stands is asked in
// clauses: a type for it would have to have the sheet, which a word has not.
fn is_marked<S: Sheet>(sheet: &S, standing: u64, u: usize, v: usize) -> bool
    requires { (u < 64) × (v < 64) × Collected (view_of S.Sheet sheet.now).stands 64 standing }
    ensures { result ≡ is_mark (view_of S.Sheet sheet.now) u v }
{
    both(standing, u, v) && ask_mark(sheet, u, v)
}

fn marks_of<S: Sheet>(sheet: &S, standing: u64) -> [u64; 64]
    requires { Collected (view_of S.Sheet sheet.now).stands 64 standing }
    ensures { Rows (λ v u. is_mark (view_of S.Sheet sheet.now) u v) result }
{
    rows(|v, u| is_marked(sheet, standing, u, v))
}

// No row has a bit from one of the two to the other.
fn unmarked(marks: &[u64; 64], u: usize, v: usize) -> bool
    requires { (u < 64) × (v < 64) }
    ensures { result ≡ unmarked_in marks.now u v }
{
    !has_bit(marks[v], u) & !has_bit(marks[u], v)
}

// The hops lead to every other standing record that no mark leads to or from.
fn hops_of(standing: u64, marks: &[u64; 64]) -> [u64; 64]
    ensures { Rows (λ v u. unmarked_from standing marks.now u v) result }
{
    rows(|v, u| both(standing, u, v) & unmarked(marks, u, v))
}

// The graph of what stands on the sheet.
pub fn read<S: Sheet>(sheet: &S) -> Graph
    ensures { Draws (view_of S.Sheet sheet.now) result }
{
    let standing = standing_of(sheet);
    let marks = marks_of(sheet, standing);
    let hops = hops_of(standing, &marks);
    Graph {
        standing,
        marks,
        hops,
    }
}
