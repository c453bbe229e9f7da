// Why a call is declined: every case has its number, and the two that show a ring say how long it is.
ghost use Rattle.std.specs.Prelude.{◌≡◌};
ghost use Rattle.model.specs.Refusals.{number_of};

#[derive(Clone, Copy, Debug, PartialEq, Eq)]
pub enum Decline {
    TooLittleMemory,
    NumberTooHigh,
    SameRecord,
    RecordAbsent,
    RecordAside,
    AlreadyStands,
    AlreadyMarked,
    SheetFull,
    NotMarked,
    NotSetAside,
    OutsideLimits,
    Circle { ring: u8 },
    Forbidden { ring: u8 },
    MissingByte,
    BrokenForm,
    DoesNotHold,
    WrongLine,
}

impl Decline {
    // The number that stands for this refusal in every answer: the answers' format sets these, and no other place has them.
    pub fn number(self) -> u8
        ensures { result ≡ number_of self }
    {
        match self {
            Decline::TooLittleMemory => 1,
            Decline::NumberTooHigh => 2,
            Decline::SameRecord => 3,
            Decline::RecordAbsent => 4,
            Decline::RecordAside => 5,
            Decline::AlreadyStands => 6,
            Decline::AlreadyMarked => 7,
            Decline::SheetFull => 8,
            Decline::NotMarked => 9,
            Decline::NotSetAside => 10,
            Decline::OutsideLimits => 11,
            Decline::Circle { ring: _ } => 12,
            Decline::Forbidden { ring: _ } => 13,
            Decline::MissingByte => 14,
            Decline::BrokenForm => 15,
            Decline::DoesNotHold => 16,
            Decline::WrongLine => 17,
        }
    }
}
