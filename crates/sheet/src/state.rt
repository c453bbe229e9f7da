// What a number is on a sheet.
ghost use Rattle.std.specs.Prelude.{◌≡◌};
ghost use Rattle.sheet.specs.States.{is_absent, is_aside, is_standing};

#[derive(Clone, Copy, Debug, PartialEq, Eq)]
pub enum State {
    // never entered
    Absent,
    // entered, and part of every grading
    Standing,
    // entered, and left out for now
    Aside,
}

impl State {
    pub fn stands(self) -> bool
        ensures { result ≡ is_standing self }
    {
        matches!(self, State::Standing)
    }

    pub fn absent(self) -> bool
        ensures { result ≡ is_absent self }
    {
        matches!(self, State::Absent)
    }

    pub fn aside(self) -> bool
        ensures { result ≡ is_aside self }
    {
        matches!(self, State::Aside)
    }
}
