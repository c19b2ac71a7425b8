// The rules of the eight kinds.
#![tactic(auto)]

ghost use Rattle.std.specs.Prelude.{◌≡◌, List, ℕ, suc, ◌<◌, length, get_or, ltb};
ghost use Rattle.record.specs.Table.{row};
ghost use Rattle.component.specs.declared.kinds.Kind.TheVariants.{Fork, Join, Switch, Merge};
ghost use Rattle.component.specs.declared.kinds.Port.TheVariants.{A, C};
ghost use Rattle.component.specs.Row.{map_of, capacity};
ghost use Rattle.held.specs.Values.{offer_number, bit, when, offered, or_else};
ghost use Rattle.held.specs.Picks.{picks_b};
ghost use Rattle.rules.specs.Rules.{mapped, to_b, component_with, rule};
ghost use Rattle.rules.specs.Seen.{seen, Offers, Takes};

pub mod rule;

use cells::CELL_SIZE;
use component::{Map, Port, Table};
use held::{HeldMerge, HeldSink, HeldSource, Offer, Pick};
pub use rule::Rule;

/// The offer with its colour mapped, by a map of row `k`. The entry is read before it is decided on: what is offered is close to random, and a read that waits for a branch on it waits for a misprediction.
pub fn map_from(table: &Table, k: usize, map: Map, offer: Offer) -> Offer
    requires { k < table.now.rows }
    ensures { offer_number result ≡ mapped (map_of map (row table.now.bytes.now k)) (offer_number offer) }
{
    let colour = match offer {
        Offer::Colour(colour) => colour,
        Offer::Nothing => 0,
    };
    let entry = table.map_of_any(k, map, colour as usize);
    match offer {
        Offer::Colour(_) => Offer::Colour(entry),
        Offer::Nothing => Offer::Nothing,
    }
}

// The mask's answer for an offer's colour: true for B.
fn to_b(table: &Table, k: usize, offer: Offer) -> bool
    requires { k < table.now.rows }
    ensures { bit result ≡ to_b (row table.now.bytes.now k) (offer_number offer) }
{
    let mask = table.mask(k);
    match offer {
        Offer::Colour(colour) => component::has_colour(mask as usize, colour as usize),
        Offer::Nothing => false,
    }
}

// A merge's pick, true for B, from its bytes. What a component holds is made of its byte 0 in place, here and below: it is a literal of one field.
#[tactic(auto, using(held::proofs::Picks::picks_read))]
fn picks_b(cell: &[u8; CELL_SIZE], choice: u8, a: Offer, b: Offer) -> bool
    ensures { bit result ≡ picks_b (get_or cell.now 0 0) choice (offer_number a) (offer_number b) }
{
    let merge = HeldMerge {
        held: Pick::from(cell[0]),
    };
    merge.picks_b(choice, a, b)
}

/// Source: its held colour if it has one, else its choice.
#[tactic(auto, using(held::proofs::Values::first_number))]
pub fn source_offer(cell: &[u8; CELL_SIZE], choice: u8) -> Offer
    ensures { offer_number result ≡ or_else (get_or cell.now 0 0) choice }
{
    let source = HeldSource {
        held: Offer::from(cell[0]),
    };
    source.offer(Offer::from(choice))
}

/// Sink takes if held or chosen.
#[tactic(auto, using(held::proofs::Values::either_byte))]
pub fn sink_take(cell: &[u8; CELL_SIZE], choice: u8) -> bool
    ensures { bit result ≡ offered (or_else (get_or cell.now 0 0) choice) }
{
    let sink = HeldSink { held: cell[0] != 0 };
    sink.take(choice != 0)
}

/// Queue: offers its front colour if not empty.
pub fn queue_offer(cell: &[u8; CELL_SIZE]) -> Offer
    ensures { offer_number result ≡ when (get_or cell.now 0 0) (suc (get_or cell.now 1 0)) }
{
    let count = cell[0];
    let front = cell[1];
    if count == 0 {
        return Offer::Nothing;
    }
    Offer::Colour(front)
}

/// Queue: takes if not full at the step's beginning.
pub fn queue_take(table: &Table, k: usize, cell: &[u8; CELL_SIZE]) -> bool
    requires { k < table.now.rows }
    ensures { bit result ≡ bit (ltb (get_or cell.now 0 0) (capacity (row table.now.bytes.now k))) }
{
    cell[0] < table.capacity(k)
}

/// Fork: B is offered the first map's colour if the input is offered and C takes; C likewise with the second map and B taking.
#[tactic(auto, using(held::proofs::Values::numbers), unfolding(crate::specs::Rules::rule, component::specs::Kind::port_use))]
pub fn fork_offer(table: &Table, k: usize, port: Port, a: Offer, bt: bool, ct: bool) -> Offer
    requires { k < table.now.rows }
    ensures { (s : List ℕ) (p ob : ℕ) → Offers Fork port (component_with (row table.now.bytes.now k) s p) (seen (offer_number a) ob (bit bt) (bit ct)) (offer_number result) }
{
    match port {
        Port::B => map_from(table, k, Map::First, a).only_if(ct),
        _ => map_from(table, k, Map::Second, a).only_if(bt),
    }
}

/// Join: offers the mapped colour of A if A and B are offered.
#[tactic(auto, using(held::proofs::Values::numbers), unfolding(crate::specs::Rules::rule, component::specs::Kind::port_use))]
pub fn join_offer(table: &Table, k: usize, a: Offer, b: Offer) -> Offer
    requires { k < table.now.rows }
    ensures { (s : List ℕ) (p tb tc : ℕ) → offer_number result ≡ rule Join C (component_with (row table.now.bytes.now k) s p) (seen (offer_number a) (offer_number b) tb tc) }
{
    map_from(table, k, Map::First, a).only_if(b.is_colour())
}

/// Join: A is taken if the output takes and B is offered; B if the output takes and A is offered.
#[tactic(auto, using(held::proofs::Values::numbers), unfolding(crate::specs::Rules::rule, component::specs::Kind::port_use))]
pub fn join_take(port: Port, a: Offer, b: Offer, ct: bool) -> bool
    ensures { (w s : List ℕ) (p tb : ℕ) → Takes Join port (component_with w s p) (seen (offer_number a) (offer_number b) tb (bit ct)) (bit result) }
{
    match port {
        Port::A => b.is_colour() & ct,
        _ => a.is_colour() & ct,
    }
}

/// Switch: offers its colour to the one output the mask names, none to the other.
#[tactic(auto, using(held::proofs::Values::numbers), unfolding(crate::specs::Rules::rule, component::specs::Kind::port_use))]
pub fn switch_offer(table: &Table, k: usize, port: Port, a: Offer) -> Offer
    requires { k < table.now.rows }
    ensures { (s : List ℕ) (p ob tb tc : ℕ) → Offers Switch port (component_with (row table.now.bytes.now k) s p) (seen (offer_number a) ob tb tc) (offer_number result) }
{
    let to_b = to_b(table, k, a);
    match port {
        Port::B => a.only_if(to_b),
        _ => a.only_if(!to_b),
    }
}

/// Switch: its input is taken if it is offered and that output takes.
#[tactic(auto, using(held::proofs::Values::numbers), unfolding(crate::specs::Rules::rule, component::specs::Kind::port_use))]
pub fn switch_take(table: &Table, k: usize, a: Offer, bt: bool, ct: bool) -> bool
    requires { k < table.now.rows }
    ensures { (s : List ℕ) (p ob : ℕ) → bit result ≡ rule Switch A (component_with (row table.now.bytes.now k) s p) (seen (offer_number a) ob (bit bt) (bit ct)) }
{
    let take = if to_b(table, k, a) { bt } else { ct };
    a.is_colour() & take
}

/// Merge: it offers the picked colour. Its colour is read on its own: the whole offer is two bytes that were stored one by one, and a read of both at once waits for the stores.
#[tactic(auto, using(held::proofs::Values::numbers), unfolding(crate::specs::Rules::rule, component::specs::Kind::port_use))]
pub fn merge_offer(cell: &[u8; CELL_SIZE], choice: u8, a: Offer, b: Offer) -> Offer
    ensures { (w : List ℕ) (tb tc : ℕ) → offer_number result ≡ rule Merge C (component_with w cell.now choice) (seen (offer_number a) (offer_number b) tb tc) }
{
    let picks_b = picks_b(cell, choice, a, b);
    match b {
        Offer::Colour(colour) if picks_b => Offer::Colour(colour),
        _ => a.only_if(!picks_b),
    }
}

/// Merge: an input is taken if picked, offered and the output takes.
#[tactic(auto, using(held::proofs::Values::numbers), unfolding(crate::specs::Rules::rule, component::specs::Kind::port_use))]
pub fn merge_take(
    cell: &[u8; CELL_SIZE],
    choice: u8,
    port: Port,
    a: Offer,
    b: Offer,
    ct: bool,
) -> bool
    ensures { (w : List ℕ) (tb : ℕ) → Takes Merge port (component_with w cell.now choice) (seen (offer_number a) (offer_number b) tb (bit ct)) (bit result) }
{
    let picks_b = picks_b(cell, choice, a, b);
    match port {
        Port::A => !picks_b & a.is_colour() & ct,
        _ => picks_b & b.is_colour() & ct,
    }
}
