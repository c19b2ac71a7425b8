// The channels of a table: the two ends of each, the dependences of their signals, and an order of them or a circle.
#![tactic(auto)]

ghost use Rattle.std.specs.Prelude.{◌≡◌, suc, ◌+◌, ◌*◌, ◌/◌, ◌≤◌, ◌<◌, not, ◌&&◌, get_or, replicate, OnOk};
ghost use Rattle.search.specs.First.{first};
ghost use Rattle.component.specs.Limits.{most_channels, most_components};
ghost use Rattle.wiring.specs.Signals.{depends_at};
ghost use Rattle.wiring.specs.Sound.{Ends, SoundWires};
ghost use Rattle.wiring.specs.Stages.{Kinds, FoundEnds, entries, port_number, Dependences, wired, ends_size};
ghost use Rattle.wiring.specs.Refused.{miswired_of, refusal_of};
ghost use Rattle.wiring.specs.Ports.{port_code, end_code, slot_of, code_has, marked, single};

use component::{Kind, Port, Table};
use order::{Circular, MOST_SIGNALS};
use refusals::Refusal;

/// A note for each signal of 256 channels, and one that nobody reads.
pub const ENDS_SIZE: usize = 513;

// A row a kind, a number a port: 16 an output, 32 an input, and what the signal there depends on: 8 offer(A), 4 offer(B), 2 take(B),
// 1 take(C). A table and no `match` on kind and port, whose jumps make reading a file a third slower.
const PORTS: &[[u8; 3]; 8] = &[
    [16, 0, 0], // source A
    [32, 0, 0], // sink A
    [32, 16, 0], // queue A, B
    [34, 24, 0], // function A: take(B); B: offer(A)
    [35, 25, 26], // fork A: take(B), take(C); B: offer(A), take(C); C: offer(A), take(B)
    [37, 41, 28], // join A: offer(B), take(C); B: offer(A), take(C); C: offer(A), offer(B)
    [43, 24, 24], // switch A: offer(A), take(B), take(C); B, C: offer(A)
    [45, 45, 28], // merge A, B: offer(A), offer(B), take(C); C: offer(A), offer(B)
];

fn port_code(kind: Kind, port: Port) -> u8
    ensures { result ≡ port_code kind port }
{
    PORTS[kind as usize][port as usize]
}

// The code of end e.
#[tactic(auto, unfolding(crate::specs::Ports::end_code))]
fn end_code(table: &Table, e: usize) -> u8
    requires end { e / 3 < table.now.rows }
    ensures { result ≡ end_code table.now.bytes.now e }
{
    port_code(table.kind(e / 3), Port::from(e % 3))
}

// Where the end of this code at channel x is noted: at 2x for an output, at 2x + 1 for an input, at 512 if it is no end. Signals and ends go by number here, as the order and
// the dependences name them.
fn slot(code: u8, x: usize) -> usize
    requires { x < 256 }
    ensures { (result ≡ slot_of code x) × (result < ends_size) }
{
    if code / 16 == 1 {
        return 2 * x;
    }
    if code / 16 == 2 {
        return 2 * x + 1;
    }
    512
}

// Whether a code has need j: 0 offer(A), 1 offer(B), 2 take(B), 3 take(C), the bits 8, 4, 2, 1 of it: a need is a number, as it is a bit and a place in a row.
fn code_has(code: u8, j: usize) -> bool
    ensures { result ≡ code_has code j }
{
    (j == 0) & (code / 8 % 2 == 1)
        | (j == 1) & (code / 4 % 2 == 1)
        | (j == 2) & (code / 2 % 2 == 1)
        | (j == 3) & (code % 2 == 1)
}

// What is noted after end e, with what was noted before it.
fn mark(e: usize, old: u16) -> u16
    requires { e < 384 }
    ensures { result ≡ marked e old }
{
    if old == 0 {
        return (e + 1) as u16;
    }
    512
}

// Notes the end at a port of component k, after all ends before it.
fn note_end(table: &Table, k: usize, port: Port, ends: &mut [u16; ENDS_SIZE])
    requires row { k < table.now.rows }
    requires few { table.now.rows ≤ most_components }
    requires before { FoundEnds table.now.bytes.now (3 * k + port_number port) ends.old }
    ensures { FoundEnds table.now.bytes.now (3 * k + port_number port + 1) ends.new }
{
    let x = usize::from(table.port(k, port));
    let at = slot(port_code(table.kind(k), port), x);
    ends[at] = mark(3 * k + port as usize, ends[at]);
}

// Notes for each signal 1 + the end that gives it, 0 where there is none, 512 where there are several.
// A number and no enum of three, which is no plainer: a plan takes 1 + the end from the notes as they stand, where an enum would be unpacked for each signal.
fn find_ends(table: &Table, ends: &mut [u16; ENDS_SIZE])
    requires few { table.now.rows ≤ most_components }
    requires clear { ends.old ≡ replicate ends_size 0 }
    ensures { FoundEnds table.now.bytes.now (3 * table.now.rows) ends.new }
{
    for k in 0..table.rows {
        note_end(table, k, Port::A, ends);
        note_end(table, k, Port::B, ends);
        note_end(table, k, Port::C, ends);
    }
}

fn single_end(v: u16) -> bool
    ensures { result ≡ single v }
{
    (0 < v) & (v < 512)
}

// The lowest channel without just one output and just one input.
fn first_unmatched(ends: &[u16; ENDS_SIZE], channels: usize) -> Option<usize>
    requires { channels ≤ most_channels }
    ensures { result ≡ first (λ x. not (single (get_or ends.now (2 * x) 0) && single (get_or ends.now (2 * x + 1) 0))) channels }
{
    search::first(channels, |x| {
        !(single_end(ends[2 * x]) & single_end(ends[2 * x + 1]))
    })
}

// The end before the one that is noted.
fn end_before(v: u16) -> usize
    requires { 0 < v }
    ensures { suc result ≡ v }
{
    v as usize - 1
}

// Entry j of what the signal at end e, of this code, depends on; 510 for none, since the walk passes over whatever is no signal by one comparison.
fn depends_at(table: &Table, e: usize, code: u8, j: usize) -> u16
    requires end { e / 3 < table.now.rows }
    requires code { code ≡ end_code table.now.bytes.now e }
    requires entry { j < 4 }
    ensures { result ≡ depends_at table.now.bytes.now e j }
{
    let x = usize::from(table.port(e / 3, Port::from((j + 1) / 2)));
    if code_has(code, j) {
        return (2 * x + j / 2) as u16;
    }
    510
}

// Lays down the four entries of the signal that end e gives, in place: handed back as an array they cost a jump each, and reading a file takes a tenth longer.
fn put_entries(table: &Table, e: usize, row: &mut [u16; 4])
    requires end { e / 3 < table.now.rows }
    ensures { row.new ≡ entries table.now.bytes.now e }
{
    let code = end_code(table, e);
    *row = [
        depends_at(table, e, code, 0),
        depends_at(table, e, code, 1),
        depends_at(table, e, code, 2),
        depends_at(table, e, code, 3),
    ];
}

// Room for the dependences of all signals. A function of its own: room that `wire` makes itself is filled twice, and it then takes half as long again on a table of six rows.
fn no_dependences() -> [[u16; 4]; MOST_SIGNALS] {
    [[0; 4]; MOST_SIGNALS]
}

// Lays down the dependences of all signals.
fn dependences(
    table: &Table,
    ends: &[u16; ENDS_SIZE],
    channels: usize,
    deps: &mut [[u16; 4]; MOST_SIGNALS],
)
    requires few { channels ≤ most_channels }
    requires ends { Ends table.now.bytes.now table.now.rows channels ends.now }
    ensures { Dependences table.now.bytes.now table.now.rows channels deps.new }
{
    for s in 0..2 * channels {
        put_entries(table, end_before(ends[s]), &mut deps[s]);
    }
}

/// What is wrong with a table's channels.
#[derive(Clone, Copy, Debug, PartialEq, Eq)]
pub enum Miswired {
    Unmatched(usize),
    Circular,
}

impl From<Circular> for Miswired {
    ghost from_gives = { λ circular miswired. miswired ≡ miswired_of circular };

    fn from(_: Circular) -> Miswired {
        Self::Circular
    }
}

impl From<Miswired> for Refusal {
    ghost from_gives = { λ miswired refusal. refusal ≡ refusal_of miswired };

    fn from(miswired: Miswired) -> Refusal {
        match miswired {
            Miswired::Unmatched(x) => Refusal::ChannelEnds(x),
            Miswired::Circular => Refusal::Circle,
        }
    }
}

/// Tests the ends of all channels and their signals' dependences. Of sound channels it lays down 1 + the end that gives each
/// signal, and the signals' order.
pub fn wire(
    table: &Table,
    channels: usize,
    ends: &mut [u16; ENDS_SIZE],
    order: &mut [u16; MOST_SIGNALS],
) -> Result<(), Miswired>
    requires kinds { Kinds table.now.bytes.now table.now.rows }
    requires few { channels ≤ most_channels }
    requires clear { ends.old ≡ replicate ends_size 0 }
    ensures answer { result ≡ wired table.now.bytes.now table.now.rows channels }
    ensures wires { OnOk result (SoundWires table.now.bytes.now table.now.rows channels ends.new order.new) }
{
    find_ends(table, ends);
    if let Some(x) = first_unmatched(ends, channels) {
        return Err(Miswired::Unmatched(x));
    }
    let mut deps = no_dependences();
    dependences(table, ends, channels, &mut deps);
    order::order_of(&deps, 2 * channels, order)?;
    Ok(())
}
