// The folder: a sheet over any sheet, in which records are set aside and brought back.
ghost use Rattle.std.specs.Prelude.{◌≡◌};
ghost use Rattle.model.specs.Refusals.{answer_number};
ghost use Rattle.model.specs.Sets.{has};
ghost use Rattle.sheet.specs.Checks.{pair_check};
ghost use Rattle.sheet.specs.Meanings.{meaning};
ghost use Rattle.sheet.specs.Views.{meaning_of};
ghost use Rattle.layers.specs.Folders.{opened, filed_states, filed_marks};
ghost use Rattle.layers.specs.FolderLaws.{seen_lawful};
ghost use Rattle.layers.specs.FolderCalls.{account_of, EntersIn, MarksIn, StrikesIn, SetsAside, BringsBack};

use model::bits::{has_bit, with_bit, without_bit};
use model::decline::Decline;
use sheet::meaning::Sheet;
use sheet::pair::check_pair;
use sheet::state::State;

#[derive(Drop)]
pub struct Folder<S> {
    below: S,
    // bit u: this folder has set u aside
    aside: u64,
}

impl<S: Sheet> Folder<S> {
    // A folder that has set nothing aside.
    pub fn new(below: S) -> Folder<S>
        ensures account { account_of S.Sheet result ≡ opened (meaning_of S.Sheet below) }
        ensures below { result.below ≡ below }
    {
        Folder { below, aside: 0 }
    }

    fn state_here(&self, u: u8) -> State
        ensures { result ≡ filed_states (account_of S.Sheet self.now) u }
    {
        match self.below.state(u) {
            State::Standing if has_bit(self.aside, u as usize) => State::Aside,
            state => state,
        }
    }

    // The first check that the pair fails in this folder, up to 5.
    fn check_here(&self, u: u8, v: u8) -> Result<(), Decline>
        ensures { answer_number result ≡ pair_check u v (filed_states (account_of S.Sheet self.now) u) (filed_states (account_of S.Sheet self.now) v) 0 }
    {
        check_pair(u, v, self.state_here(u), self.state_here(v))
    }

    pub fn set_aside(&mut self, u: u8) -> Result<(), Decline>
        ensures account { SetsAside S.Sheet u self.old self.new result }
        ensures below { self.new.below ≡ self.old.below }
    {
        if u > 63 {
            return Err(Decline::NumberTooHigh);
        }
        match self.state_here(u) {
            State::Absent => Err(Decline::RecordAbsent),
            State::Aside => Err(Decline::RecordAside),
            State::Standing => {
                self.aside = with_bit(self.aside, u as usize);
                Ok(())
            }
        }
    }

    // Undoes this folder's own setting aside.
    pub fn bring_back(&mut self, u: u8) -> Result<(), Decline>
        ensures account { BringsBack S.Sheet u self.old self.new result }
        ensures below { self.new.below ≡ self.old.below }
    {
        if u > 63 {
            return Err(Decline::NumberTooHigh);
        }
        if self.state_here(u).absent() {
            return Err(Decline::RecordAbsent);
        }
        if !has_bit(self.aside, u as usize) {
            return Err(Decline::NotSetAside);
        }
        self.aside = without_bit(self.aside, u as usize);
        Ok(())
    }
}

impl<S: Sheet> Sheet for Folder<S> {
    ghost states = { λ f. filed_states (account_of S.Sheet f) };

    ghost marks = { λ f. filed_marks (account_of S.Sheet f) };

    ghost held = { λ f. S.Sheet.held f.below };

    ghost capacity = { λ f. S.Sheet.capacity f.below };

    ghost lawful = { λ f. seen_lawful
        (record { below = meaning S.Sheet.states S.Sheet.marks S.Sheet.held S.Sheet.capacity f.below; own = has f.aside })
        (S.Sheet.lawful f.below) };

    fn state(&self, u: u8) -> State {
        self.state_here(u)
    }

    fn marked(&self, u: u8, v: u8) -> bool {
        self.below.marked(u, v) && (self.state_here(u).stands() & self.state_here(v).stands())
    }

    fn held(&self) -> u16 {
        self.below.held()
    }

    fn capacity(&self) -> u16 {
        self.below.capacity()
    }

    // Entering, marking and striking tell what becomes of the folder's account, the sheet below and the set, and so of what is out of sight too.
    fn enter(&mut self, u: u8) -> Result<(), Decline>
        ensures account { EntersIn S.Sheet u self.old self.new result }
    {
        if u > 63 {
            return Err(Decline::NumberTooHigh);
        }
        match self.state_here(u) {
            State::Standing => Err(Decline::AlreadyStands),
            State::Aside => Err(Decline::RecordAside),
            State::Absent => {
                self.aside = without_bit(self.aside, u as usize);
                self.below.enter(u)
            }
        }
    }

    fn mark(&mut self, u: u8, v: u8) -> Result<(), Decline>
        ensures account { MarksIn S.Sheet u v self.old self.new result }
    {
        self.check_here(u, v)?;
        self.below.mark(u, v)
    }

    fn strike(&mut self, u: u8, v: u8) -> Result<(), Decline>
        ensures account { StrikesIn S.Sheet u v self.old self.new result }
    {
        self.check_here(u, v)?;
        self.below.strike(u, v)
    }
}
