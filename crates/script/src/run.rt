// A whole script: from its bytes to the bytes of its answers.
ghost use Rattle.std.specs.Prelude.{◌≡◌, ◌++◌, ◌≤◌, length, IfOk, OnOk};
ghost use Rattle.layers.specs.FolderCalls.{account_of};
ghost use Rattle.sheet.specs.Views.{meaning_of};
ghost use Rattle.script.specs.Judged.{Opened, Judged};
ghost use Rattle.script.specs.Makes.{new_sheet};
ghost use Rattle.script.specs.Steps.{Lengthened, Left};
ghost use Rattle.script.specs.Text.{line_of};

use crate::lines::{bare, call_in, first_line};
use crate::make::{Make, opening};
use crate::print::print;
use crate::step::step;
use archive::answer::Answer;
use archive::desk::Desk;
use listsheet::ListSheet;
use model::decline::Decline;
use sheet::bitsheet::BitSheet;
use sheet::meaning::Sheet;
use std::alloc::{AllocError, Global};

// The line of the first answer, alone.
fn begun(heap: Global, answer: &Answer) -> Result<Vec<u8>, AllocError>
    ensures { IfOk result (λ v. v.items ≡ line_of answer.now) }
{
    let mut text = [0; 2048];
    match print(answer, &mut text) {
        Ok(n) => Vec::from_slice(heap, &text[..n]),
        Err(_) => unreachable!(),
    }
}

// One line's call, and the line of its answer at the end. The line is first made in `text`.
fn add_line<S: Sheet>(
    desk: &mut Desk<S>,
    line: &[u8],
    text: &mut [u8],
    out: &mut Vec<u8>,
) -> Result<(), AllocError>
    requires { 2048 ≤ length text.old }
    ensures { OnOk result (Lengthened (account_of S.Sheet desk.old.folder) (account_of S.Sheet desk.new.folder) line.now out.old.items out.new.items) }
{
    match step(desk, line, text) {
        Ok(n) => out.extend_from_slice(&text[..n]),
        Err(_) => unreachable!(),
    }
}

// The opening is answered by `ok`, and then each line of the script, in a new folder over the sheet.
fn run_on<S: Sheet + Drop>(heap: Global, sheet: S, script: &[u8]) -> Result<Vec<u8>, AllocError>
    ensures { IfOk result (λ v. Opened (meaning_of S.Sheet sheet) script.now v.items) }
{
    let mut desk = Desk::open(sheet);
    let mut out = begun(heap, &Answer::Taken)?;
    let mut text = [0; 2048];
    let mut rest = script;
    while let Some(line) = first_line(rest) {
        add_line(&mut desk, line, &mut text, &mut out)?;
        rest = &rest[line.len()..];
    }
    Ok(out)
}

// The desk after all lines, with the folder that they leave. Their answers are let go.
pub fn desk_after<S: Sheet + Drop>(sheet: S, lines: &[u8]) -> Desk<S>
    ensures { Left (meaning_of S.Sheet sheet) lines.now (account_of S.Sheet result.folder) }
{
    let mut desk = Desk::open(sheet);
    let mut rest = lines;
    while let Some(line) = first_line(rest) {
        let _ = desk.answer(call_in(bare(line)));
        rest = &rest[line.len()..];
    }
    desk
}

// The script in a new folder over a new sheet of the make.
fn open(heap: Global, make: Make, script: &[u8]) -> Result<Vec<u8>, AllocError>
    ensures { IfOk result (λ v. Opened (new_sheet make) script.now v.items) }
{
    match make {
        Make::Bits => run_on(heap, BitSheet::new(), script),
        Make::List => run_on(heap, ListSheet::new(), script),
    }
}

// The first line names the make of the sheet below; another first line is wrong and ends the script, and an empty script has no answer.
pub fn run(heap: Global, script: &[u8]) -> Result<Vec<u8>, AllocError>
    ensures { IfOk result (λ v. Judged script.now v.items) }
{
    if script.is_empty() {
        return Ok(Vec::new(heap));
    }
    match opening(script) {
        Some((make, rest)) => open(heap, make, rest),
        None => begun(heap, &Answer::Declined(Decline::WrongLine)),
    }
}
