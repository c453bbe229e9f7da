// What a sheet is: its first four ghost members are its meaning, and every call is told by that meaning alone; the fifth is its law.
ghost use Rattle.std.specs.Prelude.{◌≡◌, ℕ, Bool};
ghost use Rattle.sheet.specs.declared.state.State.{State};
ghost use Rattle.sheet.specs.Meanings.{meaning, Lawful};
ghost use Rattle.sheet.specs.Calls.{Enters, Marks, Strikes};

use crate::state::State;
use model::decline::Decline;

pub trait Sheet {
    // what each number is
    ghost states: { Self → ℕ → State };

    // from which number to which a mark leads
    ghost marks: { Self → ℕ → ℕ → Bool };

    // how many marks count towards the capacity
    ghost held: { Self → ℕ };

    ghost capacity: { Self → ℕ };

    fn state(&self, u: u8) -> State
        ensures { result ≡ states self.now u };

    fn marked(&self, u: u8, v: u8) -> bool
        ensures { result ≡ marks self.now u v };

    fn held(&self) -> u16
        ensures { result ≡ held self.now };

    fn capacity(&self) -> u16
        ensures { result ≡ capacity self.now };

    // Makes u standing, without marks.
    fn enter(&mut self, u: u8) -> Result<(), Decline>
        ensures { Enters (meaning states marks held capacity) u self.old self.new result };

    // Adds the mark from u to v.
    fn mark(&mut self, u: u8, v: u8) -> Result<(), Decline>
        ensures { Marks (meaning states marks held capacity) u v self.old self.new result };

    // Takes the mark from u to v away.
    fn strike(&mut self, u: u8, v: u8) -> Result<(), Decline>
        ensures { Strikes (meaning states marks held capacity) u v self.old self.new result };

    ghost lawful: { (s : Self) → Lawful (meaning states marks held capacity s) };
}
