// Why a call is refused, of all calls of the product, and what that is in numbers.
#![tactic(auto)]

ghost use Rattle.std.specs.Prelude.{◌≡◌, Err, Ok};
ghost use Rattle.refusals.specs.Refusals.{refusal_number, refusal_place, outcome_number, outcome_place};
ghost use Rattle.refusals.specs.Room.{room_for};

/// Why a call is refused, of all calls of the product.
#[derive(Clone, Copy, Debug, PartialEq, Eq)]
pub enum Refusal {
    FileShort,
    WrongEdition,
    CountRange,
    WrongLength,
    ByteSum,
    BadField(usize),
    ChannelEnds(usize),
    Circle,
    ChoiceCount,
    BadChoice(usize),
    ProposalLength,
    NoEquation(usize),
    FlowLeft(usize),
    NoWeight,
    StateShort,
    BadState(usize),
    ResultSpace,
    NotAQueue,
    WeightNotPositive,
    BadBlocks,
}

impl Refusal {
    /// The place that a refusal names, 0 if it names none.
    pub fn place(self) -> usize
        ensures { result ≡ refusal_place self }
    {
        match self {
            Refusal::BadField(place)
            | Refusal::ChannelEnds(place)
            | Refusal::BadChoice(place)
            | Refusal::NoEquation(place)
            | Refusal::FlowLeft(place)
            | Refusal::BadState(place) => place,
            _ => 0,
        }
    }
}

impl From<Refusal> for u32 {
    ghost from_gives = { λ refusal n. n ≡ refusal_number refusal };

    fn from(refusal: Refusal) -> u32 {
        match refusal {
            Refusal::FileShort => 1,
            Refusal::WrongEdition => 2,
            Refusal::CountRange => 3,
            Refusal::WrongLength => 4,
            Refusal::ByteSum => 5,
            Refusal::BadField(_) => 6,
            Refusal::ChannelEnds(_) => 7,
            Refusal::Circle => 8,
            Refusal::ChoiceCount => 9,
            Refusal::BadChoice(_) => 10,
            Refusal::ProposalLength => 11,
            Refusal::NoEquation(_) => 12,
            Refusal::FlowLeft(_) => 13,
            Refusal::NoWeight => 14,
            Refusal::StateShort => 21,
            Refusal::BadState(_) => 22,
            Refusal::ResultSpace => 23,
            Refusal::NotAQueue => 31,
            Refusal::WeightNotPositive => 32,
            Refusal::BadBlocks => 33,
        }
    }
}

/// The number of what a call comes to, 0 where nothing is refused.
pub fn outcome_number<T: Drop>(outcome: Result<T, Refusal>) -> u32
    ensures { result ≡ outcome_number outcome }
{
    match outcome {
        Ok(_) => 0,
        Err(refusal) => refusal.into(),
    }
}

/// Its place.
pub fn outcome_place<T: Drop>(outcome: Result<T, Refusal>) -> usize
    ensures { result ≡ outcome_place outcome }
{
    match outcome {
        Ok(_) => 0,
        Err(refusal) => refusal.place(),
    }
}

/// Refused if there is less space than is needed.
pub fn room_for(space: usize, need: usize) -> Result<(), Refusal>
    ensures { result ≡ room_for space need }
{
    if space < need {
        return Err(Refusal::ResultSpace);
    }
    Ok(())
}
