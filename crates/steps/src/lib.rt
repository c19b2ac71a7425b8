// start, step and run on an accepted fabric: the state at start, after a step, after whole steps in a row.
#![tactic(auto)]

ghost use Rattle.std.specs.Prelude.{◌≡◌, ◌++◌, ◌*◌, ◌/◌, ◌≤◌, length, drop};
ghost use Rattle.digits.specs.UpTo.{up_to};
ghost use Rattle.refusals.specs.Refusals.{first_refusal, kept};
ghost use Rattle.component.specs.Limits.{most_components};
ghost use Rattle.netlist.specs.Netlist.{netlist_of};
ghost use Rattle.netlist.specs.View.{facts_of};
ghost use Rattle.cells.specs.Start.{started};
ghost use Rattle.cells.specs.Cells.{cell_size};
ghost use Rattle.signals.specs.Signals as step;
ghost use Rattle.state.specs.Step.{next, CanStep};
ghost use Rattle.start.specs.Startable.{Startable};
ghost use Rattle.verdicts.specs.Tests.{start_tests, step_tests, run_tests};
ghost use Rattle.steps.specs.Steps.{after_steps};
ghost use Rattle.steps.specs.Stages.{Along, Runs};

use component::{MOST_CHANNELS, Table};
use held::{Channel, Offer};
use netlist::{Draft, Fabric, Netlist, Size};
use order::MOST_SIGNALS;
use plan::Place;
use refusals::Refusal;
use rules::Rule;

// What stands in a plan's memory before a place is laid there: `plan::lay_out` writes places into lent memory.
const NO_PLACE: Place = Place {
    rule: Rule::SourceOffer,
    channel: 0,
    component: 0,
    a: 0,
    b: 0,
    c: 0,
};

// What stands in memory before a channel's signals are worked out: that is in the plan's order and not in theirs, so all of them stand there first.
const NO_CHANNEL: Channel = Channel {
    offer: Offer::Nothing,
    take: false,
};

/// Writes the state at start, if there is room for it; else 21.
// A table and a size: a draft would ask for a row for each component even where the state has no room for them.
pub fn start_fabric(table: &Table, size: Size, state: &mut [u8]) -> Result<(), Refusal>
    requires few { size.components ≤ most_components }
    requires startable { cell_size * size.components ≤ length state.old → Startable table.now.bytes.now size.components state.old }
    requires rows { cell_size * size.components ≤ length state.old → size.components ≤ table.now.rows }
    ensures answer { result ≡ first_refusal (start_tests (netlist_of size table.now.bytes.now) (length state.old)) }
    ensures state { state.new ≡ kept result (started (netlist_of size table.now.bytes.now) state.old) state.old }
{
    verdicts::start_verdict(size, state.len())?;
    let draft = Draft {
        size,
        table: *table,
    };
    start::write_start(&draft, state);
    Ok(())
}

// Takes a step along a plan: works out the channels, and writes the state after it.
fn step_along(
    netlist: &Netlist,
    places: &[Place],
    state: &mut [u8],
    choices: &[u8],
    channels: &mut [Channel],
)
    requires along { Along (facts_of netlist.now) places.now state.old choices.now }
    requires room { netlist.now.size.channels ≤ length channels.old }
    ensures state { state.new ≡ next (facts_of netlist.now) state.old choices.now }
    ensures channels { channels.new ≡
        up_to netlist.now.size.channels (step.channel_of (facts_of netlist.now) state.old choices.now)
        ++ drop netlist.now.size.channels channels.old }
{
    signals::evaluate(netlist, places, state, choices, channels);
    state::update(&netlist.draft(), state, choices, channels);
}

// Takes one step, and writes what moved.
fn take_step(fabric: &Fabric, state: &mut [u8], choices: &[u8], moves: &mut [u8])
    requires step { CanStep (facts_of fabric.now.netlist) fabric.now.ends.now fabric.now.order.now state.old choices.now }
    requires room { fabric.now.netlist.size.channels ≤ length moves.old }
    ensures state { state.new ≡ next (facts_of fabric.now.netlist) state.old choices.now }
    ensures moves { moves.new ≡
        step.moves (facts_of fabric.now.netlist) state.old choices.now ++ drop fabric.now.netlist.size.channels moves.old }
{
    let mut places = [NO_PLACE; MOST_SIGNALS];
    let mut channels = [NO_CHANNEL; MOST_CHANNELS];
    plan::lay_out(fabric, &mut places);
    step_along(&fabric.netlist, &places, state, choices, &mut channels);
    signals::write_moves(&channels, fabric.netlist.size.channels, moves);
}

/// Takes a step, if no test is met; else the first of 21, 22, 9, 10 and 23.
pub fn step_fabric(
    fabric: &Fabric,
    state: &mut [u8],
    choices: &[u8],
    moves: &mut [u8],
) -> Result<(), Refusal>
    ensures answer { result ≡ first_refusal (step_tests (facts_of fabric.now.netlist) state.old choices.now (length moves.old)) }
    ensures state { state.new ≡ kept result (next (facts_of fabric.now.netlist) state.old choices.now) state.old }
    ensures moves { moves.new ≡ kept result
        (step.moves (facts_of fabric.now.netlist) state.old choices.now ++ drop fabric.now.netlist.size.channels moves.old) moves.old }
{
    let netlist = fabric.netlist;
    verdicts::step_verdict(&netlist.draft(), state, choices, moves.len())?;
    take_step(fabric, state, choices, moves);
    Ok(())
}

// Takes whole steps in a row; what moves is not kept.
fn run_steps(fabric: &Fabric, state: &mut [u8], choices: &[u8])
    requires { Runs (facts_of fabric.now.netlist) fabric.now.ends.now fabric.now.order.now state.old choices.now }
    ensures { state.new ≡ after_steps (facts_of fabric.now.netlist)
        (length choices.now / fabric.now.netlist.size.components) choices.now state.old }
{
    let mut places = [NO_PLACE; MOST_SIGNALS];
    let mut channels = [NO_CHANNEL; MOST_CHANNELS];
    plan::lay_out(fabric, &mut places);
    for step in choices.chunks_exact(fabric.netlist.size.components) {
        step_along(&fabric.netlist, &places, state, step, &mut channels);
    }
}

/// Takes whole steps in a row, none included, if no test is met; else the first of 21, 22, 9 and 10.
pub fn run_fabric(fabric: &Fabric, state: &mut [u8], choices: &[u8]) -> Result<(), Refusal>
    ensures answer { result ≡ first_refusal (run_tests (facts_of fabric.now.netlist) state.old choices.now) }
    ensures state { state.new ≡ kept result (after_steps (facts_of fabric.now.netlist)
        (length choices.now / fabric.now.netlist.size.components) choices.now state.old) state.old }
{
    let netlist = fabric.netlist;
    verdicts::run_verdict(&netlist.draft(), state, choices)?;
    run_steps(fabric, state, choices);
    Ok(())
}
