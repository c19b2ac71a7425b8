// The state of a fabric: what a step makes of it.
#![tactic(auto)]

ghost use Rattle.std.specs.Prelude.{◌≡◌, ◌∷◌, suc, ◌+◌, ◌≤◌, ◌<◌, length, get_or, drop};
ghost use Rattle.record.specs.Table.{row};
ghost use Rattle.component.specs.Row.{kind, port};
ghost use Rattle.netlist.specs.View.{drawn};
ghost use Rattle.cells.specs.Cells.{queue_colours, cell_with, Queue, cell_size};
ghost use Rattle.held.specs.Values.{offer_number, bit, when, unless, offered};
ghost use Rattle.held.specs.Picks.{picks_b};
ghost use Rattle.rules.specs.Rules.{component_with};
ghost use Rattle.signals.specs.Channels.{no_channel, offer_in, take_in, signal_in};
ghost use Rattle.state.specs.Step.{dropped, appended, cell_next, state_next};
ghost use Rattle.state.specs.Updatable.{newest, Moves, Movable, Updatable};

use cells::CELL_SIZE;
use component::{Kind, Port, Table};
use held::{Channel, HeldMerge, HeldSink, HeldSource, Offer, Pick};
use netlist::Draft;
use signals::moved_on;

// The queue without its front.
#[tactic(auto, using(crate::proofs::Queues::queues))]
fn drop_front(queue: &mut [u8])
    requires queue { Queue queue.old }
    requires not_empty { 0 < length (queue_colours queue.old) }
    ensures { queue.new ≡ cell_with (drop 1 (queue_colours queue.old)) }
{
    let count = queue[0] - 1;
    queue.copy_within(2.., 1);
    queue[63] = 0;
    queue[0] = count;
}

// It drops its front if its output moved.
fn let_out(queue: &mut [u8], mb: u8)
    requires queue { Queue queue.old }
    requires not_empty { 0 < mb → 0 < length (queue_colours queue.old) }
    ensures { queue.new ≡ cell_with (dropped mb (queue_colours queue.old)) }
{
    if 0 < mb {
        drop_front(queue);
    }
}

// The colour that came in, or what stood there.
fn colour_or(ma: u8, old: u8) -> u8
    ensures { result ≡ newest ma old }
{
    if 0 < ma { ma - 1 } else { old }
}

// It appends what came in, without a branch: what comes in is close to random, and a branch on it is mispredicted as often as not.
#[tactic(auto, using(crate::proofs::Queues::queues, held::proofs::Values::came_byte))]
fn let_in(queue: &mut [u8], ma: u8)
    requires queue { Queue queue.old }
    requires room { length (queue_colours queue.old) + offered ma ≤ 63 }
    ensures { queue.new ≡ cell_with (appended ma (queue_colours queue.old)) }
{
    let count = queue[0] + u8::from(ma != 0);
    let end = count as usize;
    queue[end] = colour_or(ma, queue[end]);
    queue[0] = count;
}

// A queue after a step: it drops its front if its output moved, then appends what came in. What moves is a byte, as a step writes it; the bytes of a cell are lent and written one by one, so
// that they are a queue's stays a clause.
fn queue_next(queue: &mut [u8], ma: u8, mb: u8)
    requires { Moves queue.old ma mb }
    ensures { queue.new ≡ cell_with (appended ma (dropped mb (queue_colours queue.old))) }
{
    let_out(queue, mb);
    let_in(queue, ma);
}

// A source after a step: it holds its colour if it was offered and not taken. What it holds is made of byte 0 in place, here and below: a literal of one field.
#[tactic(auto, using(crate::proofs::Turn::set_first, held::proofs::Values::held_number))]
fn source_next(cell: &mut [u8], channel: Channel)
    requires cell { length cell.old ≡ cell_size }
    requires channel { offer_number channel.offer ≤ 255 }
    ensures { cell.new ≡ unless (bit channel.take) (offer_number channel.offer) ∷ drop 1 cell.old }
{
    let source = HeldSource {
        held: Offer::from(cell[0]),
    };
    cell[0] = u8::from(source.next(channel).held);
}

// A sink after a step: it holds if it took and nothing was offered.
#[tactic(auto, using(crate::proofs::Turn::set_first, held::proofs::Values::held_flag, held::proofs::Values::flag_byte))]
fn sink_next(cell: &mut [u8], channel: Channel)
    requires { length cell.old ≡ cell_size }
    ensures { cell.new ≡ unless (offered (offer_number channel.offer)) (bit channel.take) ∷ drop 1 cell.old }
{
    let sink = HeldSink { held: cell[0] != 0 };
    cell[0] = u8::from(sink.next(channel).held);
}

// A merge after a step: it keeps its pick if its output was offered and not taken.
#[tactic(auto, using(crate::proofs::Turn::set_first, held::proofs::Picks::picks_read))]
fn merge_next(cell: &mut [u8], choice: u8, a: Offer, b: Offer, output: Channel)
    requires { length cell.old ≡ cell_size }
    ensures { cell.new ≡ unless (bit output.take) (when (offer_number output.offer)
        (suc (picks_b (get_or cell.old 0 0) choice (offer_number a) (offer_number b)))) ∷ drop 1 cell.old }
{
    let merge = HeldMerge {
        held: Pick::from(cell[0]),
    };
    cell[0] = u8::from(merge.next(choice, a, b, output).held);
}

// The channel at a port of component k.
fn channel_at(table: &Table, k: usize, at: Port, channels: &[Channel]) -> Channel
    requires row { k < table.now.rows }
    requires inside { port (row table.now.bytes.now k) at < length channels.now }
    ensures { result ≡ get_or channels.now (port (row table.now.bytes.now k) at) no_channel }
{
    channels[table.port(k, at) as usize]
}

// A component's bytes after a step, from its choice and the channels at its ports.
#[tactic(auto, unfolding(crate::specs::Step::cell_next))]
fn cell_next(table: &Table, k: usize, cell: &mut [u8], choice: u8, channels: &[Channel])
    requires row { k < table.now.rows }
    requires movable { Movable table.now.bytes.now k cell.old channels.now }
    ensures { cell.new ≡ cell_next (kind (row table.now.bytes.now k)) (component_with (row table.now.bytes.now k) cell.old choice)
        (λ p. offer_in channels.now (port (row table.now.bytes.now k) p)) (λ p. take_in channels.now (port (row table.now.bytes.now k) p)) }
{
    match table.kind(k) {
        Kind::Source => source_next(cell, channel_at(table, k, Port::A, channels)),
        Kind::Sink => sink_next(cell, channel_at(table, k, Port::A, channels)),
        Kind::Queue => {
            let input = channel_at(table, k, Port::A, channels);
            let output = channel_at(table, k, Port::B, channels);
            queue_next(cell, moved_on(input), moved_on(output));
        }
        Kind::Function | Kind::Fork | Kind::Join | Kind::Switch => {}
        Kind::Merge => {
            let a = channel_at(table, k, Port::A, channels);
            let b = channel_at(table, k, Port::B, channels);
            let output = channel_at(table, k, Port::C, channels);
            merge_next(cell, choice, a.offer, b.offer, output);
        }
    }
}

/// The state after a step, from the choices and the channels.
// The state is bytes, 64 a component, as the memory that is lent through C; no `[u8; CELL_SIZE]` cells, since std's contract of
// `as_chunks_mut` does not say what the slice holds once they are written, and a cell of a part comes out of an `Option`.
pub fn update(draft: &Draft, state: &mut [u8], choices: &[u8], channels: &[Channel])
    requires updatable { Updatable draft.now.table.bytes.now draft.now.size.components state.old channels.now }
    requires choices { draft.now.size.components ≤ length choices.now }
    ensures { state.new ≡ state_next (drawn draft.now) state.old choices.now (signal_in channels.now) }
{
    for k in 0..draft.size.components {
        let at = CELL_SIZE * k;
        cell_next(
            &draft.table,
            k,
            &mut state[at..at + CELL_SIZE],
            choices[k],
            channels,
        );
    }
}
