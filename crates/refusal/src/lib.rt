// Why a call is refused, and where (01, 'Who can cause a refusal'; 02's new numbers).
#![tactic(auto)]

ghost use Rattle.std.specs.Prelude.{◌≡◌};
ghost use Rattle.refusal.specs.Number.{number_of};
ghost use Rattle.refusal.specs.Outcome.{about};

// The condition under which a call is refused: one for each number of 01's list, in its order, but for 35, which no call gives (02, E7),
// and then those of 02.
#[derive(Clone, Copy)]
pub enum Reason {
    // Faults of the key.
    KeyTooLong,
    RecordIncomplete,
    KindUnknown,
    RecordMisplaced,
    BitsTooMany,
    ArraysTooMany,
    CellOutside,
    ValueTooGreat,
    CalledNotEarlier,
    CalledTooLarge,
    PositionTooGreat,
    LastShapeWrong,
    BytesAfterEnd,
    // Faults of the point.
    RowCountWrong,
    ColumnCountWrong,
    CoordinateTooGreat,
    AddressOutside,
    // Faults of the calling program.
    SheetTooShort,
    BufferTooShort,
    OffsetTooGreat,
    OperandTooGreat,
    // Faults of keysheet's input.
    InputTooShort,
    InputTooLong,
    // Faults of a key to be moved into the other edition.
    FactorNotOne,
    MovedTooLong,
    // Faults of the rates of a price.
    RateTooGreat,
}

// A refusal: its reason, and the place that 01 or 02 gives for that reason.
#[derive(Clone, Copy)]
pub struct Refusal {
    pub reason: Reason,
    pub place: usize,
}

// One of the two keys that a call takes: the one that a refusal is about, or that is handed back.
#[derive(Clone, Copy)]
pub enum Which {
    First,
    Second,
    // No key: the refusal is about the two together, the point or the sheet.
    Neither,
}

// A refusal by a call that takes two keys, and the key that it is about.
#[derive(Clone, Copy)]
pub struct PairRefusal {
    pub key: Which,
    pub refusal: Refusal,
}

impl Refusal {
    // The refusal for a reason at a place.
    pub fn new(reason: Reason, place: usize) -> Refusal
        ensures { result ≡ record { reason = reason; place = place } }
    {
        Refusal { reason, place }
    }

    // The same by a call that takes two keys, about the first, the second or neither.
    pub fn of_first(self) -> PairRefusal
        ensures { result ≡ about self Which.First }
    {
        PairRefusal {
            key: Which::First,
            refusal: self,
        }
    }

    pub fn of_second(self) -> PairRefusal
        ensures { result ≡ about self Which.Second }
    {
        PairRefusal {
            key: Which::Second,
            refusal: self,
        }
    }

    pub fn of_neither(self) -> PairRefusal
        ensures { result ≡ about self Which.Neither }
    {
        PairRefusal {
            key: Which::Neither,
            refusal: self,
        }
    }
}

impl Reason {
    // The number that 01 or 02 gives the reason.
    #[tactic(auto, unfolding(crate::specs::Number::number_of))]
    pub fn number(self) -> u32
        ensures { result ≡ number_of self }
    {
        match self {
            Reason::KeyTooLong => 1,
            Reason::RecordIncomplete => 2,
            Reason::KindUnknown => 3,
            Reason::RecordMisplaced => 4,
            Reason::BitsTooMany => 5,
            Reason::ArraysTooMany => 6,
            Reason::CellOutside => 7,
            Reason::ValueTooGreat => 8,
            Reason::CalledNotEarlier => 9,
            Reason::CalledTooLarge => 10,
            Reason::PositionTooGreat => 11,
            Reason::LastShapeWrong => 12,
            Reason::BytesAfterEnd => 13,
            Reason::RowCountWrong => 21,
            Reason::ColumnCountWrong => 22,
            Reason::CoordinateTooGreat => 23,
            Reason::AddressOutside => 24,
            Reason::SheetTooShort => 31,
            Reason::BufferTooShort => 32,
            Reason::OffsetTooGreat => 33,
            Reason::OperandTooGreat => 34,
            Reason::InputTooShort => 41,
            Reason::InputTooLong => 42,
            Reason::FactorNotOne => 55,
            Reason::MovedTooLong => 56,
            Reason::RateTooGreat => 62,
        }
    }
}
