// Works out the colours that can reach each channel, by a stack of components that have to pass on what came in.
#![tactic(auto)]

ghost use Rattle.std.specs.Prelude.{◌≡◌, ◌⊎◌, ℕ, true, cond, [], ◌∷◌, ◌++◌, ◌&&◌, ◌||◌, ◌+◌, ◌≤◌, ◌<◌, eqb, ltb, length, get_or, set, None};
ghost use Rattle.std.specs.Option.{ForSome};
ghost use Rattle.record.specs.Table.{row};
ghost use Rattle.component.specs.Kind.{port_use, is_output};
ghost use Rattle.component.specs.Limits.{most_colours, most_components};
ghost use Rattle.component.specs.Row.{kind, map_of, filling, fill_colour, has_colour};
ghost use Rattle.netlist.specs.Netlist.{netlist_of};
ghost use Rattle.netlist.specs.View.{facts_of};
ghost use Rattle.reach.specs.Rounds.{image, passed};
ghost use Rattle.reach.specs.Known.{SetBytes};
ghost use Rattle.spread.specs.Spread.{IsSet, Below, MapBelow, Targets, first_output, grown_set};
ghost use Rattle.spread.specs.InTurn.{one_less, most_turns, listed_in_turn, SpreadingInTurn, PassedOnInTurn, FurtherTurns, Settled};

use arrayvec::ArrayVec;
use component::{Kind, MOST_COMPONENTS, MOST_FLOWS, Map, Port, Table};
use netlist::Netlist;

/// A set for each channel that a byte can name.
pub const SETS_SIZE: usize = 256;

// A first turn for each component, and one more for each member that a set gets.
const MOST_TURNS: usize = MOST_COMPONENTS + MOST_FLOWS;

/// A netlist, and the bytes of its colour sets where they are worked out already.
#[derive(Clone, Copy, Debug)]
pub struct ColouredNetlist<'a> {
    pub netlist: Netlist<'a>,
    pub sets: Option<&'a [u8]>,
    pub ghost known: { ForSome sets (λ bytes. SetBytes (netlist_of netlist.size netlist.table.bytes.now) bytes.now) },
}

/// A netlist whose sets are not worked out.
impl<'a> From<Netlist<'a>> for ColouredNetlist<'a> {
    ghost from_gives = { λ netlist coloured. (coloured.netlist ≡ netlist) × (coloured.sets ≡ None) };

    fn from(netlist: Netlist<'a>) -> ColouredNetlist<'a> {
        Self {
            netlist,
            sets: None,
        }
    }
}

// The set of one colour.
#[tactic(auto, using(crate::proofs::Sets::set_one))]
fn one(d: usize) -> u8
    requires { d < most_colours }
    ensures { IsSet result (eqb d) }
{
    128 >> d
}

// The set of colour c where a set has colour d, else none.
fn one_if(set: u8, d: usize, c: usize) -> u8
    requires { (d < most_colours) × (c < most_colours) }
    ensures { IsSet result (λ e. has_colour set d && eqb c e) }
{
    if component::has_colour(set as usize, d) {
        return one(c);
    }
    0
}

// The colours that a map of component k makes of those in a set.
fn mapped(table: &Table, k: usize, map: Map, colours: usize, set: u8) -> u8
    requires { (k < table.now.rows) × (colours ≤ most_colours) × MapBelow colours (map_of map (row table.now.bytes.now k)) }
    ensures { IsSet result (image colours (map_of map (row table.now.bytes.now k)) (has_colour set)) }
{
    let mut made = 0;
    for d in 0..colours {
        made |= one_if(set, d, table.map_of(k, map, d) as usize);
    }
    made
}

// The colour that a queue is filled with, if it is.
fn fill_set(table: &Table, k: usize) -> u8
    requires { (k < table.now.rows) × (fill_colour (row table.now.bytes.now k) < most_colours) }
    ensures { IsSet result (λ e. ltb 0 (filling (row table.now.bytes.now k)) && eqb (fill_colour (row table.now.bytes.now k)) e) }
{
    if table.filling(k) == 0 {
        return 0;
    }
    one(table.fill_colour(k) as usize)
}

// The colours that go out at a port of component k, where those in a come in at port A and those in b at port B.
fn let_out(netlist: &Netlist, k: usize, port: Port, a: u8, b: u8) -> u8
    requires row { k < netlist.now.size.components }
    requires sets { Below netlist.now.size.colours a × Below netlist.now.size.colours b }
    ensures { IsSet result (λ d. ltb d netlist.now.size.colours && passed (kind (row netlist.now.table.bytes.now k)) port netlist.now.size.colours (row netlist.now.table.bytes.now k) (has_colour a) (has_colour b) d) }
{
    let table = netlist.table;
    let colours = netlist.size.colours;
    match (table.kind(k), port) {
        (Kind::Source, _) => table.mask(k),
        (Kind::Sink, _) => 0,
        (Kind::Queue, _) => a | fill_set(&table, k),
        (Kind::Function, _) => mapped(&table, k, Map::First, colours, a),
        (Kind::Fork, Port::A) => 0,
        (Kind::Fork, Port::B) => mapped(&table, k, Map::First, colours, a),
        (Kind::Fork, Port::C) => mapped(&table, k, Map::Second, colours, a),
        (Kind::Join, _) if b == 0 => 0,
        (Kind::Join, _) => mapped(&table, k, Map::First, colours, a),
        (Kind::Switch, Port::A) => 0,
        (Kind::Switch, Port::B) => a & table.mask(k),
        (Kind::Switch, Port::C) => a ^ (a & table.mask(k)),
        (Kind::Merge, _) => a | b,
    }
}

// A netlist, and the component that takes from each channel.
#[derive(Drop)]
struct Takers<'a> {
    netlist: Netlist<'a>,
    by_channel: [u8; SETS_SIZE],
    ghost noted: { Targets (netlist_of netlist.size netlist.table.bytes.now) netlist.size.components by_channel },
}

// Notes component k at the channels that it takes from.
fn note_inputs(netlist: &Netlist, k: usize, by_channel: &mut [u8; SETS_SIZE])
    requires { (k < netlist.now.size.components) × Targets (facts_of netlist.now) k by_channel.old }
    ensures { Targets (facts_of netlist.now) (k + 1) by_channel.new }
{
    let table = netlist.table;
    match table.kind(k) {
        Kind::Source => {}
        Kind::Join | Kind::Merge => {
            by_channel[table.port(k, Port::A) as usize] = k as u8;
            by_channel[table.port(k, Port::B) as usize] = k as u8;
        }
        _ => by_channel[table.port(k, Port::A) as usize] = k as u8,
    }
}

// The component that takes from each channel.
fn find_takers(netlist: &Netlist) -> [u8; SETS_SIZE]
    ensures { Targets (facts_of netlist.now) netlist.now.size.components result }
{
    let mut by_channel = [0; SETS_SIZE];
    for k in 0..netlist.size.components {
        note_inputs(netlist, k, &mut by_channel);
    }
    by_channel
}

// The first output port of a kind that has one. Forks and switches have C besides.
#[tactic(auto, unfolding(crate::specs::Spread::first_output))]
fn first_output(kind: Kind) -> Port
    ensures { result ≡ first_output kind }
{
    match kind {
        Kind::Source | Kind::Sink => Port::A,
        Kind::Join | Kind::Merge => Port::C,
        _ => Port::B,
    }
}

// The sets while they are worked out, and the components that have to pass on what came in.
#[derive(Drop)]
struct Spread {
    sets: [u8; SETS_SIZE],
    // of each component, how many of its inputs are still to come; 0 from when it waits for its first turn
    to_come: [u8; MOST_COMPONENTS],
    waiting: ArrayVec<u8, MOST_TURNS>,
}

impl Spread {
    // Adds colours to the set of channel x, whose giver has its turn. The component that takes from x waits for a turn once all its inputs have come; from then on, where some colours are new.
    fn add(&mut self, takers: &Takers, x: usize, more: u8)
        requires taker { (x < 256) × (get_or takers.now.by_channel x 0 < most_components) }
        requires room { listed_in_turn self.old.sets takers.now.by_channel self.old.to_come x more ≡ true → length self.old.waiting.items < most_turns }
        ensures sets { self.new.sets ≡ set self.old.sets x (grown_set self.old.sets x more) }
        ensures to_come { self.new.to_come ≡ one_less self.old.to_come (get_or takers.now.by_channel x 0) }
        ensures waiting { self.new.waiting.items ≡ cond (listed_in_turn self.old.sets takers.now.by_channel self.old.to_come x more) (self.old.waiting.items ++ get_or takers.now.by_channel x 0 ∷ []) self.old.waiting.items }
    {
        let old = self.sets[x];
        let all = old | more;
        self.sets[x] = all;
        let taker = takers.by_channel[x];
        let left = self.to_come[taker as usize];
        self.to_come[taker as usize] = left.saturating_sub(1);
        if left == 1 || (left == 0 && all != old) {
            self.waiting.push(taker);
        }
    }

    // Adds what goes out at an output port of component k to the set there.
    fn pass_out(&mut self, takers: &Takers, k: usize, port: Port)
        requires before { SpreadingInTurn (facts_of takers.now.netlist) self.old.sets self.old.to_come self.old.waiting.items }
        requires turn { (k < takers.now.netlist.size.components) × (get_or self.old.to_come k 0 ≡ 0) }
        requires output { is_output (port_use (kind (row takers.now.netlist.table.bytes.now k)) port) ≡ true }
        ensures passed { PassedOnInTurn (facts_of takers.now.netlist) self.old.sets self.old.to_come self.old.waiting.items self.new.sets self.new.to_come self.new.waiting.items (λ q. q ≡ port) k }
        ensures further { FurtherTurns (facts_of takers.now.netlist) self.old.sets self.old.to_come self.new.sets self.new.waiting.items (λ q. q ≡ port) k }
    {
        let table = takers.netlist.table;
        let a = self.sets[table.port(k, Port::A) as usize];
        let b = self.sets[table.port(k, Port::B) as usize];
        let more = let_out(&takers.netlist, k, port, a, b);
        self.add(takers, table.port(k, port) as usize, more);
    }

    // The same at each output port of component k.
    fn pass_on(&mut self, takers: &Takers, k: usize)
        requires before { SpreadingInTurn (facts_of takers.now.netlist) self.old.sets self.old.to_come self.old.waiting.items }
        requires turn { (k < takers.now.netlist.size.components) × (get_or self.old.to_come k 0 ≡ 0) }
        ensures passed { PassedOnInTurn (facts_of takers.now.netlist) self.old.sets self.old.to_come self.old.waiting.items self.new.sets self.new.to_come self.new.waiting.items (λ q. is_output (port_use (kind (row takers.now.netlist.table.bytes.now k)) q) ≡ true) k }
        ensures further { FurtherTurns (facts_of takers.now.netlist) self.old.sets self.old.to_come self.new.sets self.new.waiting.items (λ q. is_output (port_use (kind (row takers.now.netlist.table.bytes.now k)) q) ≡ true) k }
    {
        let kind = takers.netlist.table.kind(k);
        if let Kind::Sink = kind {
            return;
        }
        self.pass_out(takers, k, first_output(kind));
        if let Kind::Fork | Kind::Switch = kind {
            self.pass_out(takers, k, Port::C);
        }
    }

    // Gives component k its first turn, unless it had one, and then a turn to each that waits, until nothing is new.
    fn start(&mut self, takers: &Takers, k: usize)
        requires turn { k < takers.now.netlist.size.components }
        requires before { Settled (facts_of takers.now.netlist) self.old.sets self.old.to_come self.old.waiting.items }
        ensures after { Settled (facts_of takers.now.netlist) self.new.sets self.new.to_come self.new.waiting.items }
        ensures due { (j : ℕ) → (j ≡ k) ⊎ (get_or self.old.to_come j 0 ≡ 0) → get_or self.new.to_come j 0 ≡ 0 }
    {
        if self.to_come[k] == 0 {
            return;
        }
        self.to_come[k] = 0;
        self.pass_on(takers, k);
        while let Some(j) = self.waiting.pop() {
            self.pass_on(takers, j as usize);
        }
    }
}

// How many inputs a kind has; for a source 1, which never comes. It decides only in which order turns are given, so that the sets come out right asks no more than that it is not 0.
fn inputs_of(kind: Kind) -> u8
    ensures { 0 < result }
{
    match kind {
        Kind::Join | Kind::Merge => 2,
        _ => 1,
    }
}

// The same of each component.
#[tactic(auto, using(crate::proofs::WorkInTurn::inputs_more))]
fn find_inputs(netlist: &Netlist) -> [u8; MOST_COMPONENTS]
    ensures long { length result ≡ most_components }
    ensures some { (k : ℕ) → k < netlist.now.size.components → 0 < get_or result k 0 }
{
    let mut inputs = [0; MOST_COMPONENTS];
    for k in 0..netlist.size.components {
        inputs[k] = inputs_of(netlist.table.kind(k));
    }
    inputs
}

/// The sets of all channels, a mask byte each. From the sources on, each component passes on what has come in once all its inputs have; then each that is left, in a circle of the
/// drawing or behind one; and each passes on again what comes in later, until nothing is new.
pub fn work_out(netlist: &Netlist) -> [u8; SETS_SIZE]
    ensures { SetBytes (facts_of netlist.now) result }
{
    let by_channel = find_takers(netlist);
    let takers = Takers {
        netlist: *netlist,
        by_channel,
    };
    let mut spread = Spread {
        sets: [0; SETS_SIZE],
        to_come: find_inputs(netlist),
        waiting: ArrayVec::new(),
    };
    for k in 0..netlist.size.components {
        if let Kind::Source = netlist.table.kind(k) {
            spread.start(&takers, k);
        }
    }
    for k in 0..netlist.size.components {
        spread.start(&takers, k);
    }
    spread.sets
}
