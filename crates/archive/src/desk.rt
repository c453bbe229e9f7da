// A folder and the memory of its gradings: calls are taken one by one, and each has its answer.
ghost use Rattle.std.specs.Prelude.{◌≡◌, true};
ghost use Rattle.sheet.specs.Views.{meaning_of};
ghost use Rattle.layers.specs.Folders.{opened};
ghost use Rattle.layers.specs.FolderCalls.{account_of};
ghost use Rattle.archive.specs.Right.{Tells, Right};
ghost use Rattle.archive.specs.Following.{Tidy, Tended, Answered, asks, ChangeBy};

use crate::answer::Answer;
use crate::call::Call;
use crate::grades::{loose_answer, strict_answer, unit_answer};
use crate::ratio::ratio_answer;
use grading::memory::Room;
use layers::folder::Folder;
use model::decline::Decline;
use scale::pair::Pair;
use scale::unit::Unit;
use scale::whole::Whole;
use sheet::meaning::Sheet;

impl From<Result<(), Decline>> for Answer {
    ghost from_gives = { Tells };

    fn from(made: Result<(), Decline>) -> Answer {
        match made {
            Ok(()) => Answer::Taken,
            Err(decline) => Answer::Declined(decline),
        }
    }
}

// Memory for each kind of grading.
#[derive(Drop)]
struct Rooms {
    wholes: Room<Whole>,
    pairs: Room<Pair<Whole, Unit>>,
    units: Room<Unit>,
}

impl Rooms {
    fn new() -> Rooms {
        Rooms {
            wholes: Room::new(),
            pairs: Room::new(),
            units: Room::new(),
        }
    }
}

// A call that asks nothing: what it makes of the folder's account, and whether it is taken. None for a question, and then nothing is done.
fn change_in<S: Sheet>(folder: &mut Folder<S>, call: Call) -> Option<Result<(), Decline>>
    ensures { ChangeBy (Tended Right) (account_of S.Sheet folder.old) call (account_of S.Sheet folder.new) result }
{
    match call {
        Call::Enter(u) => Some(folder.enter(u)),
        Call::Mark(u, v) => Some(folder.mark(u, v)),
        Call::Strike(u, v) => Some(folder.strike(u, v)),
        Call::SetAside(u) => Some(folder.set_aside(u)),
        Call::BringBack(u) => Some(folder.bring_back(u)),
        Call::Wrong => Some(Err(Decline::WrongLine)),
        Call::Loose(_) | Call::Strict(_) | Call::Unit | Call::Ratio => None,
    }
}

// A question, and its answer.
#[tactic(auto, using(crate::proofs::Following::loose_answered, crate::proofs::Following::strict_answered, crate::proofs::Following::units_answered, crate::proofs::Following::ratio_answered))]
fn ask_in<S: Sheet>(folder: &Folder<S>, rooms: &mut Rooms, call: Call) -> Answer
    requires { asks call ≡ true }
    ensures { Tended Right (account_of S.Sheet folder.now) call (account_of S.Sheet folder.now) result }
{
    match call {
        Call::Loose(thresholds) => loose_answer(folder, thresholds, &mut rooms.wholes.lend()),
        Call::Strict(thresholds) => strict_answer(folder, thresholds, &mut rooms.pairs.lend()),
        Call::Unit => unit_answer(folder, &mut rooms.units.lend()),
        Call::Ratio => ratio_answer(folder, &mut rooms.wholes.lend()),
        _ => unreachable!(),
    }
}

// A folder at work: with the memory that its gradings need, some 150 kB, so that no call takes a heap.
#[derive(Drop)]
pub struct Desk<S: Sheet> {
    folder: Folder<S>,
    rooms: Rooms,
    ghost tidy: { Tidy (account_of S.Sheet folder) },
}

impl<S: Sheet> Desk<S> {
    // A new folder over the sheet: nothing is set aside.
    pub fn open(sheet: S) -> Desk<S>
        ensures { account_of S.Sheet result.folder ≡ opened (meaning_of S.Sheet sheet) }
    {
        Desk {
            folder: Folder::new(sheet),
            rooms: Rooms::new(),
        }
    }

    // The folder, to ask it questions or to grade it in other memory.
    pub fn folder(&self) -> &Folder<S>
        ensures { result.now ≡ self.now.folder }
    {
        &self.folder
    }

    // A call that asks nothing is made, without an answer of its own: whether it is taken, or by what it is declined. None for a
    // question, which is not asked, and the folder is kept.
    pub fn change(&mut self, call: Call) -> Option<Result<(), Decline>>
        ensures { ChangeBy Answered (account_of S.Sheet self.old.folder) call (account_of S.Sheet self.new.folder) result }
    {
        change_in(&mut self.folder, call)
    }

    // One call: it is taken, or declined by the first check that fails, as the account says; gradings and the least ratio are answered by
    // what then stands. No call is declined by 1.
    pub fn answer(&mut self, call: Call) -> Answer
        ensures { Answered (account_of S.Sheet self.old.folder) call (account_of S.Sheet self.new.folder) result }
    {
        match self.change(call) {
            Some(made) => made.into(),
            None => ask_in(&self.folder, &mut self.rooms, call),
        }
    }
}
