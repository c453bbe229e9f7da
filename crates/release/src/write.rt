// Writing a release of what stands on a sheet, in memory that the caller brings.
ghost use Rattle.std.specs.Prelude.{◌≡◌, ◌≤◌, length};
ghost use Rattle.sheet.specs.Views.{view_of};
ghost use Rattle.grading.specs.Outcomes.{brought, SameLent};
ghost use Rattle.release.specs.Grades.{Lows};
ghost use Rattle.release.specs.Writing.{release_of, Puts, Released};

use crate::draft::Draft;
use crate::sections::lay_out;
use grading::memory::Memory;
use grading::ratio::{Ratio, least_ratio};
use model::decline::Decline;
use scale::whole::Whole;
use sheet::meaning::Sheet;

// Puts the draft at the front of `out` and answers its length: declines by 1 where `out` is shorter.
fn put_out(draft: &Draft, out: &mut [u8]) -> Result<usize, Decline>
    ensures { Puts draft.now.items out.old out.new result }
{
    if out.len() < draft.len() {
        return Err(Decline::TooLittleMemory);
    }
    out[..draft.len()].copy_from_slice(draft.as_slice());
    Ok(draft.len())
}

// The release of what the least ratio found, while it stands in the memory.
fn draft_of<S: Sheet>(sheet: &S, memory: &Memory<'_, Whole>, least: Ratio) -> Draft
    requires low { Lows (view_of S.Sheet sheet.now) (brought memory.now).grades }
    requires grades { 64 ≤ length (brought memory.now).grades }
    requires ring { (least.ring ≤ 64) × (64 ≤ length (brought memory.now).ring) }
    ensures { result.items ≡ release_of (view_of S.Sheet sheet.now) (brought memory.now) least }
{
    let ring = &memory.ring[..least.ring as usize];
    lay_out(sheet, memory.grades, ring)
}

// The release of the least ratio's finding at the front of `out`, and its length: declines by 1 for the least ratio's memory,
// by 12, and by 1 where `out` is shorter than the release.
pub fn write_release<S: Sheet>(
    sheet: &S,
    memory: &mut Memory<'_, Whole>,
    out: &mut [u8],
) -> Result<usize, Decline>
    ensures released { Released (view_of S.Sheet sheet.now) (brought memory.old) (brought memory.new) out.old out.new result }
    ensures same { SameLent memory.old memory.new }
{
    let least = least_ratio(sheet, memory)?;
    put_out(&draft_of(sheet, memory, least), out)
}
