// The release of the folder that a script leaves, read back before it is handed out.
ghost use Rattle.sheet.specs.Views.{meaning_of};
ghost use Rattle.grading.specs.Outcomes.{brought, SameLent};
ghost use Rattle.dispatch.specs.Dispatches.{WrittenAfter, DispatchedInto, Dispatched};

use crate::refusal::Refusal;
use grading::memory::{Memory, Room};
use listsheet::ListSheet;
use model::decline::Decline;
use round::trip::write_and_read;
use scale::whole::Whole;
use script::make::{Make, opening};
use script::run::desk_after;
use sheet::bitsheet::BitSheet;
use sheet::meaning::Sheet;
use std::alloc::Global;

// The release after the lines, in a new folder over the sheet.
fn after<S: Sheet + Drop>(
    sheet: S,
    lines: &[u8],
    memory: &mut Memory<'_, Whole>,
    out: &mut [u8],
) -> Result<usize, Decline>
    ensures written { WrittenAfter (meaning_of S.Sheet sheet) lines.now (brought memory.old) (brought memory.new) out.old out.new result }
    ensures same { SameLent memory.old memory.new }
{
    let (length, _) = write_and_read(desk_after(sheet, lines).folder(), memory, out)?;
    Ok(length)
}

// The release of the folder that the script leaves, at the front of `out`, and its length. Declines by 17 where the first line names no
// make; then as a release is written: by 1 for the memory, by 12 where a circle stands, and by 1 where `out` is shorter than the release.
// Lines that are declined, or wrong, change nothing, as in the judge.
pub fn dispatch_into(
    script: &[u8],
    memory: &mut Memory<'_, Whole>,
    out: &mut [u8],
) -> Result<usize, Decline>
    ensures written { DispatchedInto script.now (brought memory.old) (brought memory.new) out.old out.new result }
    ensures same { SameLent memory.old memory.new }
{
    let (make, lines) = opening(script).ok_or(Decline::WrongLine)?;
    match make {
        Make::Bits => after(BitSheet::new(), lines, memory, out),
        Make::List => after(ListSheet::new(), lines, memory, out),
    }
}

// The same in memory of its own, with the release on the heap: declines by 17 or 12, and where a release was made and the heap has no
// room for it, says so.
pub fn dispatch(heap: Global, script: &[u8]) -> Result<Vec<u8>, Refusal>
    ensures { Dispatched script.now result }
{
    let mut out = [0; 8453];
    let length = dispatch_into(script, &mut Room::new().lend(), &mut out)?;
    Ok(Vec::from_slice(heap, &out[..length])?)
}
