// The turn: the sheet below read the other way round, for a judge who marks the weaker.
ghost use Rattle.std.specs.Prelude.{◌≡◌};
ghost use Rattle.layers.specs.Turns.{turned};
ghost use Rattle.layers.specs.TurnLaws.{turned_lawful};

use model::decline::Decline;
use sheet::meaning::Sheet;
use sheet::state::State;

#[derive(Drop)]
pub struct Turn<S> {
    below: S,
}

impl<S: Sheet> Turn<S> {
    pub fn new(below: S) -> Turn<S>
        ensures { result.below ≡ below }
    {
        Turn { below }
    }
}

impl<S: Sheet> Sheet for Turn<S> {
    ghost states = { λ t. S.Sheet.states t.below };

    ghost marks = { λ t. turned (S.Sheet.marks t.below) };

    ghost held = { λ t. S.Sheet.held t.below };

    ghost capacity = { λ t. S.Sheet.capacity t.below };

    ghost lawful = { λ s. turned_lawful (S.Sheet.lawful s.below) };

    fn state(&self, u: u8) -> State {
        self.below.state(u)
    }

    fn marked(&self, u: u8, v: u8) -> bool {
        self.below.marked(v, u)
    }

    fn held(&self) -> u16 {
        self.below.held()
    }

    fn capacity(&self) -> u16 {
        self.below.capacity()
    }

    fn enter(&mut self, u: u8) -> Result<(), Decline> {
        self.below.enter(u)
    }

    fn mark(&mut self, u: u8, v: u8) -> Result<(), Decline> {
        self.below.mark(v, u)
    }

    fn strike(&mut self, u: u8, v: u8) -> Result<(), Decline> {
        self.below.strike(v, u)
    }
}
