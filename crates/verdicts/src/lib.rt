// The verdicts of start, step and run on an accepted fabric.
#![tactic(auto)]

ghost use Rattle.std.specs.Prelude.{◌≡◌, List, [], ℕ, ◌≤◌, length};
ghost use Rattle.refusals.specs.Refusals.{first_refusal};
ghost use Rattle.component.specs.Limits.{most_components};
ghost use Rattle.netlist.specs.Netlist.{netlist_of};
ghost use Rattle.netlist.specs.View.{drawn};
ghost use Rattle.verdicts.specs.Tests.{start_tests, step_tests, run_tests};
ghost use Rattle.verdicts.specs.Stages.{state_tests, choice_tests, Testable};

use cells::CELL_SIZE;
use netlist::{Draft, Size};
use refusals::Refusal;

/// The refusal 21, with so many bytes of state memory. It is the same for every table, and so for an empty one.
pub fn start_verdict(size: Size, space: usize) -> Result<(), Refusal>
    requires { size.components ≤ most_components }
    ensures answer { result ≡ first_refusal (start_tests (netlist_of size []) space) }
    ensures any_table { (table : List ℕ) → result ≡ first_refusal (start_tests (netlist_of size table) space) }
{
    if space < CELL_SIZE * size.components {
        return Err(Refusal::StateShort);
    }
    Ok(())
}

// The refusals 21 and 22.
fn state_verdict(draft: &Draft, state: &[u8]) -> Result<(), Refusal>
    requires few { Testable (drawn draft.now) }
    ensures { result ≡ first_refusal (state_tests (drawn draft.now) state.now) }
{
    start_verdict(draft.size, state.len())?;
    if let Some(k) = good::first_bad_cell(draft, state) {
        return Err(Refusal::BadState(k));
    }
    Ok(())
}

// The refusal 10.
fn choice_verdict(draft: &Draft, choices: &[u8]) -> Result<(), Refusal>
    requires few { Testable (drawn draft.now) }
    ensures { result ≡ first_refusal (choice_tests (drawn draft.now) choices.now) }
{
    if let Some(o) = good::first_bad_choice(draft, choices) {
        return Err(Refusal::BadChoice(o));
    }
    Ok(())
}

/// The refusals 21, 22, 9, 10 and 23 of a step, with so many bytes for the moves.
pub fn step_verdict(
    draft: &Draft,
    state: &[u8],
    choices: &[u8],
    space: usize,
) -> Result<(), Refusal>
    requires few { Testable (drawn draft.now) }
    ensures { result ≡ first_refusal (step_tests (drawn draft.now) state.now choices.now space) }
{
    state_verdict(draft, state)?;
    if choices.len() != draft.size.components {
        return Err(Refusal::ChoiceCount);
    }
    choice_verdict(draft, choices)?;
    refusals::room_for(space, draft.size.channels)
}

/// The refusals 21, 22, 9 and 10 of a run.
pub fn run_verdict(draft: &Draft, state: &[u8], choices: &[u8]) -> Result<(), Refusal>
    requires few { Testable (drawn draft.now) }
    ensures { result ≡ first_refusal (run_tests (drawn draft.now) state.now choices.now) }
{
    state_verdict(draft, state)?;
    if choices.len() % draft.size.components != 0 {
        return Err(Refusal::ChoiceCount);
    }
    choice_verdict(draft, choices)
}
