// Why a call is refused: 01's table of refusals. "Where several apply, the lowest number is returned."

ghost use Rattle.std.specs.Prelude.{◌≡◌};
ghost use Rattle.model.specs.Refusals.{number_of};

// The rows by their numbers, named as in include/gorehimu.h, which says when each comes.
#[derive(Clone, Copy, PartialEq, Eq)]
pub enum Refusal {
    StoreLength = 1,
    Unsound = 2,
    TransactionZero = 3,
    KeyRange = 4,
    ClockZero = 5,
    Taken = 6,
    LiveFull = 7,
    NotLive = 8,
    IsClosing = 9,
    NotClosing = 10,
    WritesFull = 11,
    ReadsFull = 12,
    SlotsFull = 13,
    NotHeld = 14,
    Newest = 15,
    IsRead = 16,
    RecordChanged = 17,
    Damaged = 18,
    Malformed = 19,
    LimitRange = 20,
    NoClock = 21,
    TooManySlots = 22,
    TooManyKeys = 23,
    NotAStream = 27,
    LogLimits = 28,
}

impl Refusal {
    pub fn number(self) -> u8
        ensures { result ≡ number_of self }
    {
        self as u8
    }
}
