// How many records and marks stand on a sheet: the counts that go before their sections.
ghost use Rattle.std.specs.Prelude.{◌≡◌, ℕ, ◌+◌, ◌<◌, ◌≤◌, Bool, length};
ghost use Rattle.model.specs.Rings.{bit};
ghost use Rattle.sheet.specs.Views.{view_of};
ghost use Rattle.form.specs.Sections.{records_below, marks_from, marks_below};

use sheet::meaning::Sheet;

// How many numbers below 64 pass.
fn count<F: Fn(u8) -> bool>(passes: F) -> u8
    requires { (u : ℕ) → u < 64 → F.pre passes u }
    ensures counted { (n : ℕ → ℕ) → n 0 ≡ 0 → ((u : ℕ) (b : Bool) → u < 64 → F.post passes u b → n (u + 1) ≡ n u + bit b) → result ≡ n 64 }
    ensures few { result ≤ 64 }
{
    // not filter and count over the range: the proof did not close
    let mut count = 0;
    for u in 0..64u8 {
        if passes(u) {
            count += 1;
        }
    }
    count
}

pub(crate) fn count_records<S: Sheet>(sheet: &S) -> u8
    ensures { result ≡ length (records_below (view_of S.Sheet sheet.now) 64) }
{
    count(|u| sheet.state(u).stands())
}

// The marks from u.
fn count_marks_from<S: Sheet>(sheet: &S, u: u8) -> u8
    ensures counted { result ≡ length (marks_from (view_of S.Sheet sheet.now) u 64) }
    ensures few { result ≤ 64 }
{
    count(|v| sheet.marked(u, v))
}

pub(crate) fn count_marks<S: Sheet>(sheet: &S) -> u16
    ensures { result ≡ length (marks_below (view_of S.Sheet sheet.now) 64) }
{
    // not map and sum over the range: the proof did not close
    let mut count = 0u16;
    for u in 0..64u8 {
        count += u16::from(count_marks_from(sheet, u));
    }
    count
}
