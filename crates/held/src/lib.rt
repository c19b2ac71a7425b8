// An offer, the two signals of a channel, and what a source, a sink and a merge hold over a step.
#![tactic(auto)]

ghost use Rattle.std.specs.Prelude.{◌≡◌, suc, ◌≤◌, ◌&&◌, ◌||◌, not, if◌then◌else◌};
ghost use Rattle.held.specs.declared.Offer.TheVariants.{Nothing};
ghost use Rattle.held.specs.Values.{offer_number, bit, when, unless, is_colour, first_colour};
ghost use Rattle.held.specs.Picks.{pick_number, pick_of, picks_b};

/// An offer: nothing, or a colour.
// An enum of its own, as the document names it; a byte becomes an `Option<u8>` by another rule.
#[derive(Clone, Copy, Debug, PartialEq, Eq)]
pub enum Offer {
    Nothing,
    Colour(u8),
}

impl Offer {
    pub fn is_colour(self) -> bool
        ensures { result ≡ is_colour self }
    {
        match self {
            Offer::Colour(_) => true,
            Offer::Nothing => false,
        }
    }

    /// The offer, or nothing where it is not let through.
    pub fn only_if(self, passes: bool) -> Offer
        ensures { result ≡ (if passes then self else Nothing) }
    {
        if passes { self } else { Offer::Nothing }
    }
}

/// The offer that a byte of the state or of the choices says: 0 for nothing, else 1 + the colour.
impl From<u8> for Offer {
    ghost from_gives = { λ byte offer. offer_number offer ≡ byte };

    fn from(byte: u8) -> Offer {
        match byte {
            0 => Offer::Nothing,
            _ => Offer::Colour(byte - 1),
        }
    }
}

/// The byte that says an offer; 0 for a colour of 255, which no fabric has.
impl From<Offer> for u8 {
    ghost from_gives = { λ offer byte. offer_number offer ≤ 255 → byte ≡ offer_number offer };

    fn from(offer: Offer) -> u8 {
        match offer {
            Offer::Colour(colour) => colour.wrapping_add(1),
            Offer::Nothing => 0,
        }
    }
}

/// The two signals of a channel.
#[derive(Clone, Copy, Debug, PartialEq, Eq)]
pub struct Channel {
    pub offer: Offer,
    pub take: bool,
}

/// What a source holds over a step.
#[derive(Clone, Copy, Debug, PartialEq, Eq)]
pub struct HeldSource {
    pub held: Offer,
}

impl HeldSource {
    /// The held colour if it has one, else its choice.
    pub fn offer(self, choice: Offer) -> Offer
        ensures { result ≡ first_colour self.held choice }
    {
        match self.held {
            Offer::Colour(_) => self.held,
            Offer::Nothing => choice,
        }
    }

    /// It holds its colour if it was offered and not taken.
    pub fn next(self, channel: Channel) -> HeldSource
        ensures { result.held ≡ (if channel.take then Nothing else channel.offer) }
    {
        HeldSource {
            held: channel.offer.only_if(!channel.take),
        }
    }
}

/// What a sink holds over a step.
#[derive(Clone, Copy, Debug, PartialEq, Eq)]
pub struct HeldSink {
    pub held: bool,
}

impl HeldSink {
    /// It takes if held or chosen.
    pub fn take(self, chosen: bool) -> bool
        ensures { result ≡ (self.held || chosen) }
    {
        self.held | chosen
    }

    /// It holds if it took and nothing was offered.
    pub fn next(self, channel: Channel) -> HeldSink
        ensures { result.held ≡ (channel.take && not (is_colour channel.offer)) }
    {
        HeldSink {
            held: channel.take & !channel.offer.is_colour(),
        }
    }
}

/// The input that a merge is bound to.
#[derive(Clone, Copy, Debug, PartialEq, Eq)]
pub enum Pick {
    Free,
    A,
    B,
}

/// The pick that a byte of the state says: 0 for none, 1 for A, else B. It cannot fail.
impl From<u8> for Pick {
    ghost from_gives = { λ byte pick. pick ≡ pick_of byte };

    fn from(byte: u8) -> Pick {
        match byte {
            0 => Pick::Free,
            1 => Pick::A,
            _ => Pick::B,
        }
    }
}

/// The byte that says a pick.
impl From<Pick> for u8 {
    ghost from_gives = { λ pick byte. byte ≡ pick_number pick };

    fn from(pick: Pick) -> u8 {
        match pick {
            Pick::Free => 0,
            Pick::A => 1,
            Pick::B => 2,
        }
    }
}

/// What a merge holds over a step: its pick.
#[derive(Clone, Copy, Debug, PartialEq, Eq)]
pub struct HeldMerge {
    pub held: Pick,
}

impl HeldMerge {
    /// Its pick, true for B: while the held input is offered it is picked over the choice; else, if both inputs are offered the choice
    /// picks, else the one offered.
    #[tactic(auto, using(crate::proofs::Values::bit_nonzero), unfolding(crate::specs::Picks::picks_b))]
    pub fn picks_b(self, choice: u8, a: Offer, b: Offer) -> bool
        ensures { bit result ≡ picks_b (pick_number self.held) choice (offer_number a) (offer_number b) }
    {
        match (a, b) {
            (Offer::Nothing, _) => true,
            (_, Offer::Nothing) => false,
            _ => (self.held == Pick::B) | (self.held == Pick::Free) & (choice != 0),
        }
    }

    /// It keeps its pick if its output was offered and not taken.
    pub fn next(self, choice: u8, a: Offer, b: Offer, output: Channel) -> HeldMerge
        ensures { pick_number result.held ≡ unless (bit output.take) (when (offer_number output.offer)
            (suc (picks_b (pick_number self.held) choice (offer_number a) (offer_number b)))) }
    {
        let held = match (output.take, output.offer) {
            (true, _) => Pick::Free,
            (_, Offer::Nothing) => Pick::Free,
            _ if self.picks_b(choice, a, b) => Pick::B,
            _ => Pick::A,
        };
        HeldMerge { held }
    }
}
