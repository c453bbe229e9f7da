// One line of a script: its call is taken at a desk, and the line of the answer is written.
ghost use Rattle.layers.specs.FolderCalls.{account_of};
ghost use Rattle.script.specs.Steps.{Step};

use crate::lines::{bare, call_in};
use crate::print::print;
use archive::desk::Desk;
use model::decline::Decline;
use sheet::meaning::Sheet;

// Writes the answer's line at the front of `out`, and gives its length. The line may have its byte 10. Declines by 1 where `out` is
// shorter than 2,048 bytes, and then takes no call.
pub fn step<S: Sheet>(desk: &mut Desk<S>, line: &[u8], out: &mut [u8]) -> Result<usize, Decline>
    ensures { Step (account_of S.Sheet desk.old.folder) (account_of S.Sheet desk.new.folder) line.now out.old out.new result }
{
    if out.len() < 2048 {
        return Err(Decline::TooLittleMemory);
    }
    let call = call_in(bare(line));
    match desk.change(call) {
        Some(made) => print(&made.into(), out),
        None => print(&desk.answer(call), out),
    }
}
