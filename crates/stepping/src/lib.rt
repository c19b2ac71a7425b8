// start, step and run: the calls on the state of a fabric.
#![tactic(auto)]

ghost use Rattle.std.specs.Prelude.{◌≡◌, length};
ghost use Rattle.stepping.specs.Calls.{start_verdict, state_after_start, step_verdict, state_after_step, moves_after_step, run_verdict, state_after_run};

use reader::Buffers;
use refusals::Refusal;

/// What start answers, with so much state memory.
#[tactic(auto, using(crate::proofs::After::start_outcome))]
pub fn start_answer(file: &[u8], space: usize) -> Result<(), Refusal>
    ensures { result ≡ start_verdict file.now space }
{
    let mut buffers = Buffers::new();
    let netlist = buffers.read(file)?.netlist;
    verdicts::start_verdict(netlist.size, space)
}

/// Writes the state at start.
#[tactic(auto, using(crate::proofs::After::start_outcome, crate::proofs::After::start_state))]
pub fn start(file: &[u8], state: &mut [u8]) -> Result<(), Refusal>
    ensures answer { result ≡ start_verdict file.now (length state.old) }
    ensures state { state.new ≡ state_after_start file.now state.old }
{
    let mut buffers = Buffers::new();
    let netlist = buffers.read(file)?.netlist;
    steps::start_fabric(&netlist.table, netlist.size, state)
}

/// What step answers, with so much space for the moves.
#[tactic(auto, using(crate::proofs::After::step_outcome))]
pub fn step_answer(file: &[u8], state: &[u8], choices: &[u8], space: usize) -> Result<(), Refusal>
    ensures { result ≡ step_verdict file.now state.now choices.now space }
{
    let mut buffers = Buffers::new();
    let netlist = buffers.read(file)?.netlist;
    verdicts::step_verdict(&netlist.draft(), state, choices, space)
}

/// Takes a step: writes the state after it and what moved.
#[tactic(auto, using(crate::proofs::After::step_outcome, crate::proofs::After::step_state, crate::proofs::After::step_moves))]
pub fn step(file: &[u8], state: &mut [u8], choices: &[u8], moves: &mut [u8]) -> Result<(), Refusal>
    ensures answer { result ≡ step_verdict file.now state.old choices.now (length moves.old) }
    ensures state { state.new ≡ state_after_step file.now state.old choices.now (length moves.old) }
    ensures moves { moves.new ≡ moves_after_step file.now state.old choices.now moves.old }
{
    let mut buffers = Buffers::new();
    let fabric = buffers.read(file)?;
    steps::step_fabric(&fabric, state, choices, moves)
}

/// What run answers.
#[tactic(auto, using(crate::proofs::After::run_outcome))]
pub fn run_answer(file: &[u8], state: &[u8], choices: &[u8]) -> Result<(), Refusal>
    ensures { result ≡ run_verdict file.now state.now choices.now }
{
    let mut buffers = Buffers::new();
    let netlist = buffers.read(file)?.netlist;
    verdicts::run_verdict(&netlist.draft(), state, choices)
}

/// Takes whole steps in a row, none included, where all their choices are allowed.
#[tactic(auto, using(crate::proofs::After::run_outcome, crate::proofs::After::run_state))]
pub fn run(file: &[u8], state: &mut [u8], choices: &[u8]) -> Result<(), Refusal>
    ensures answer { result ≡ run_verdict file.now state.old choices.now }
    ensures state { state.new ≡ state_after_run file.now state.old choices.now }
{
    let mut buffers = Buffers::new();
    let fabric = buffers.read(file)?;
    steps::run_fabric(&fabric, state, choices)
}
