// The rules by name, one for each port that a kind uses.

ghost use Rattle.std.specs.Prelude.{◌≡◌};
ghost use Rattle.rules.specs.Seen.{named};

use component::{Kind, Port};

/// The rules, one for each port that a kind uses: at an output port that of the port's offer, at an input port that of its take.
#[derive(Clone, Copy, Debug, PartialEq, Eq)]
pub enum Rule {
    SourceOffer,
    SinkTake,
    QueueTake,
    QueueOffer,
    FunctionTake,
    FunctionOffer,
    ForkTake,
    ForkOfferB,
    ForkOfferC,
    JoinTakeA,
    JoinTakeB,
    JoinOffer,
    SwitchTake,
    SwitchOfferB,
    SwitchOfferC,
    MergeTakeA,
    MergeTakeB,
    MergeOffer,
}

// A row a kind, a rule a port. A table and no `match`: a plan looks up some 300 of them, and jumps on kind and port are mispredicted.
const RULES: &[[Rule; 3]; 8] = &[
    [Rule::SourceOffer, Rule::SourceOffer, Rule::SourceOffer],
    [Rule::SinkTake, Rule::SinkTake, Rule::SinkTake],
    [Rule::QueueTake, Rule::QueueOffer, Rule::QueueOffer],
    [Rule::FunctionTake, Rule::FunctionOffer, Rule::FunctionOffer],
    [Rule::ForkTake, Rule::ForkOfferB, Rule::ForkOfferC],
    [Rule::JoinTakeA, Rule::JoinTakeB, Rule::JoinOffer],
    [Rule::SwitchTake, Rule::SwitchOfferB, Rule::SwitchOfferC],
    [Rule::MergeTakeA, Rule::MergeTakeB, Rule::MergeOffer],
];

impl Rule {
    /// The rule at a port that a kind uses; of an unused port it says nothing.
    pub fn at(kind: Kind, port: Port) -> Rule
        ensures { result ≡ named kind port }
    {
        RULES[kind as usize][port as usize]
    }
}
