// Why something is refused, by name, and the number that the rules give each reason (specs/Refusals.antt).
#![tactic(auto)]

ghost use Rattle.std.specs.Prelude.{◌≡◌, cond};
ghost use Rattle.refusals.specs.Refusals.{number_of, outcome_number};

// Why a request, a step back, a practice file, a binder, a spacing or a classroom list is refused.
#[derive(Clone, Copy, Debug, PartialEq, Eq)]
pub enum Refusal {
    NoSuchKind,
    SideDoesNotFit,
    NumberDoesNotFit,
    AmountDoesNotFit,
    WrongSizeOrLetters,
    WrongContents,
    LegOutOfRange,
    BoundBroken,
    OnTheField,
    NotOnTheField,
    NotFromItsZone,
    NotHeadOfItsZone,
    LegNotFlownOut,
    SideTaken,
    SideIsAFixOnTheApproach,
    MissedZoneOccupied,
    LateralZoneOccupied,
    BothHoldingsOccupied,
    BelowOccupied,
    NotFirstInSequence,
    TwoOnTheOppositeBase,
    RunwayOccupied,
    BoundWouldBreak,
    OfTheOtherDesk,
    NothingToTakeBack,
    BufferTooShort,
    NotInTheDialect,
    NoBinder,
    NoSuchDesk,
}

impl Refusal {
    // Its number in the rules.
    #[tactic(auto, unfolding(crate::specs::Refusals::number_of))]
    pub fn number(self) -> u16
        ensures { result ≡ number_of self }
    {
        match self {
            Refusal::NoSuchKind => 1,
            Refusal::SideDoesNotFit => 2,
            Refusal::NumberDoesNotFit => 3,
            Refusal::AmountDoesNotFit => 4,
            Refusal::WrongSizeOrLetters => 5,
            Refusal::WrongContents => 6,
            Refusal::LegOutOfRange => 7,
            Refusal::BoundBroken => 10,
            Refusal::OnTheField => 11,
            Refusal::NotOnTheField => 12,
            Refusal::NotFromItsZone => 13,
            Refusal::NotHeadOfItsZone => 14,
            Refusal::LegNotFlownOut => 15,
            Refusal::SideTaken => 16,
            Refusal::SideIsAFixOnTheApproach => 17,
            Refusal::MissedZoneOccupied => 18,
            Refusal::LateralZoneOccupied => 19,
            Refusal::BothHoldingsOccupied => 20,
            Refusal::BelowOccupied => 21,
            Refusal::NotFirstInSequence => 22,
            Refusal::TwoOnTheOppositeBase => 23,
            Refusal::RunwayOccupied => 24,
            Refusal::BoundWouldBreak => 25,
            Refusal::OfTheOtherDesk => 26,
            Refusal::NothingToTakeBack => 27,
            Refusal::BufferTooShort => 28,
            Refusal::NotInTheDialect => 29,
            Refusal::NoBinder => 30,
            Refusal::NoSuchDesk => 31,
        }
    }
}

// The number of an outcome: 0 where nothing refuses it.
pub fn outcome_number(outcome: Result<(), Refusal>) -> u16
    ensures { result ≡ outcome_number outcome }
{
    match outcome {
        Ok(()) => 0,
        Err(refusal) => refusal.number(),
    }
}

// What holds of something, or else the reason that refuses it.
pub fn require(met: bool, otherwise: Refusal) -> Result<(), Refusal>
    ensures { outcome_number result ≡ cond met 0 (number_of otherwise) }
{
    if met { Ok(()) } else { Err(otherwise) }
}
