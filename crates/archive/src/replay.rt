// A list of calls on a new folder over a sheet of any make, with all their answers.
ghost use Rattle.archive.specs.Replays.{ReplayedIn};

use crate::answer::Answer;
use crate::call::Call;
use crate::desk::Desk;
use model::decline::Decline;
use sheet::meaning::Sheet;

// Opens a new folder over the sheet, and takes all calls in their order: the answer to each is put in its place, and the desk
// has the folder after them. Places past the calls are kept. Declines by 1 where there are fewer places than calls.
pub fn replay<S: Sheet + Drop>(
    sheet: S,
    calls: &[Call],
    answers: &mut [Answer],
) -> Result<Desk<S>, Decline>
    ensures { ReplayedIn S.Sheet sheet calls.now answers.old answers.new result }
{
    if answers.len() < calls.len() {
        return Err(Decline::TooLittleMemory);
    }
    let mut desk = Desk::open(sheet);
    for (i, call) in calls.iter().enumerate() {
        answers[i] = desk.answer(*call);
    }
    Ok(desk)
}
