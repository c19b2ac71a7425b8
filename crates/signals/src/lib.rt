// All signals of a fabric, worked out one by one along a plan, and what moves.
#![tactic(auto)]

ghost use Rattle.std.specs.Prelude.{◌≡◌, ◌++◌, ℕ, ◌≤◌, ◌<◌, length, get_or, drop};
ghost use Rattle.digits.specs.UpTo.{up_to};
ghost use Rattle.netlist.specs.View.{facts_of};
ghost use Rattle.held.specs.Values.{offer_number};
ghost use Rattle.rules.specs.Seen.{gives_offer};
ghost use Rattle.signals.specs.Signals.{channel_of};
ghost use Rattle.signals.specs.Channels.{no_channel, signal_number, offers, signal_at, moved_of, moved_in, Ready};

use cells::CELL_SIZE;
use component::{Map, Port, Table};
use held::{Channel, Offer};
use netlist::Netlist;
use plan::Place;
use rules::{
    Rule, fork_offer, join_offer, join_take, map_from, merge_offer, merge_take, queue_offer,
    queue_take, sink_take, source_offer, switch_offer, switch_take,
};

// One of the two signals of a channel.
enum OfferOrTake {
    Offer(Offer),
    Take(bool),
}

// The signal that a place's rule gives, from its component and the channels at the component's ports. Each rule reads what it needs:
// reading all for each takes a quarter longer.
#[tactic(auto, using(held::proofs::Values::both_flags), unfolding(rules::specs::Rules::rule, component::specs::Kind::port_use))]
fn signal(
    place: Place,
    channels: &[Channel],
    table: &Table,
    cell: &[u8; CELL_SIZE],
    choice: u8,
) -> OfferOrTake
    requires row { place.component < table.now.rows }
    requires a { place.a < length channels.now }
    requires b { place.b < length channels.now }
    requires c { place.c < length channels.now }
    ensures is { signal_number result ≡ signal_at place channels.now table.now.bytes.now cell.now choice }
    ensures side { offers result ≡ gives_offer place.rule }
{
    let k = place.component as usize;
    let a = place.a as usize;
    let b = place.b as usize;
    let c = place.c as usize;
    match place.rule {
        Rule::SourceOffer => OfferOrTake::Offer(source_offer(cell, choice)),
        Rule::SinkTake => OfferOrTake::Take(sink_take(cell, choice)),
        Rule::QueueTake => OfferOrTake::Take(queue_take(table, k, cell)),
        Rule::QueueOffer => OfferOrTake::Offer(queue_offer(cell)),
        Rule::FunctionTake => OfferOrTake::Take(channels[b].take),
        Rule::FunctionOffer => OfferOrTake::Offer(map_from(
            table,
            k,
            Map::First,
            channels[a].offer,
        )),
        Rule::ForkTake => OfferOrTake::Take(channels[b].take & channels[c].take),
        Rule::ForkOfferB => OfferOrTake::Offer(fork_offer(
            table,
            k,
            Port::B,
            channels[a].offer,
            channels[b].take,
            channels[c].take,
        )),
        Rule::ForkOfferC => OfferOrTake::Offer(fork_offer(
            table,
            k,
            Port::C,
            channels[a].offer,
            channels[b].take,
            channels[c].take,
        )),
        Rule::JoinTakeA => OfferOrTake::Take(join_take(
            Port::A,
            channels[a].offer,
            channels[b].offer,
            channels[c].take,
        )),
        Rule::JoinTakeB => OfferOrTake::Take(join_take(
            Port::B,
            channels[a].offer,
            channels[b].offer,
            channels[c].take,
        )),
        Rule::JoinOffer => OfferOrTake::Offer(join_offer(
            table,
            k,
            channels[a].offer,
            channels[b].offer,
        )),
        Rule::SwitchTake => OfferOrTake::Take(switch_take(
            table,
            k,
            channels[a].offer,
            channels[b].take,
            channels[c].take,
        )),
        Rule::SwitchOfferB => OfferOrTake::Offer(switch_offer(
            table,
            k,
            Port::B,
            channels[a].offer,
        )),
        Rule::SwitchOfferC => OfferOrTake::Offer(switch_offer(
            table,
            k,
            Port::C,
            channels[a].offer,
        )),
        Rule::MergeTakeA => OfferOrTake::Take(merge_take(
            cell,
            choice,
            Port::A,
            channels[a].offer,
            channels[b].offer,
            channels[c].take,
        )),
        Rule::MergeTakeB => OfferOrTake::Take(merge_take(
            cell,
            choice,
            Port::B,
            channels[a].offer,
            channels[b].offer,
            channels[c].take,
        )),
        Rule::MergeOffer => OfferOrTake::Offer(merge_offer(
            cell,
            choice,
            channels[a].offer,
            channels[b].offer,
        )),
    }
}

/// Works out both signals of every channel, one by one along the plan's order.
pub fn evaluate(
    netlist: &Netlist,
    places: &[Place],
    state: &[u8],
    choices: &[u8],
    channels: &mut [Channel],
)
    requires ready { Ready (facts_of netlist.now) places.now state.now choices.now }
    requires room { netlist.now.size.channels ≤ length channels.old }
    ensures { channels.new ≡
        up_to netlist.now.size.channels (channel_of (facts_of netlist.now) state.now choices.now)
        ++ drop netlist.now.size.channels channels.old }
{
    for place in &places[..2 * netlist.size.channels] {
        let k = place.component as usize;
        let x = place.channel as usize;
        match signal(
            *place,
            channels,
            &netlist.table,
            cells::cell(state, k),
            choices[k],
        ) {
            OfferOrTake::Offer(offer) => channels[x].offer = offer,
            OfferOrTake::Take(take) => channels[x].take = take,
        }
    }
}

/// What moves on a channel: 0, or 1 + the colour.
#[tactic(auto, using(held::proofs::Values::passed_number))]
pub fn moved_on(channel: Channel) -> u8
    requires { offer_number channel.offer ≤ 255 }
    ensures { result ≡ moved_of channel }
{
    u8::from(channel.offer.only_if(channel.take))
}

/// Writes what moves on each of the first `m` channels.
// m bounds the writing and not the memory: that holds the channels of the largest fabric.
#[tactic(auto, using(digits::proofs::UpTo::filled_more), unfolding(digits::specs::UpTo::up_to))]
pub fn write_moves(channels: &[Channel], m: usize, moves: &mut [u8])
    requires there { m ≤ length channels.now }
    requires small { (x : ℕ) → x < m → offer_number (get_or channels.now x no_channel).offer ≤ 255 }
    requires room { m ≤ length moves.old }
    ensures { moves.new ≡ up_to m (moved_in channels.now) ++ drop m moves.old }
{
    for x in 0..m {
        moves[x] = moved_on(channels[x]);
    }
}
