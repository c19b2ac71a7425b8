// The result of a block, for a fabric that was read.
#![tactic(auto)]

ghost use Rattle.std.specs.Prelude.{◌≡◌, ◌++◌, ◌+◌, ◌*◌, ◌≤◌, length, drop};
ghost use Rattle.digits.specs.UpTo.{up_to};
ghost use Rattle.component.specs.Limits.{most_components};
ghost use Rattle.netlist.specs.View.{facts_of};
ghost use Rattle.flows.specs.Terms.{most_terms};
ghost use Rattle.flows.specs.Flows.{constant};
ghost use Rattle.flows.specs.Verdict.{giving, judged};
ghost use Rattle.result.specs.Result.{result_size, entry_by, block_result, over};

use judgement::Entry;
use netlist::Size;
use refusals::{Refusal, outcome_number, outcome_place};
use spread::ColouredNetlist;

/// How many entries a block's result has.
pub fn result_size(size: Size) -> usize
    requires { size.components ≤ most_components }
    ensures { result ≡ 3 + 8 * size.components }
{
    3 + 8 * size.components
}

// The judgement on a block, and its weights in lent memory, or zeros.
fn weigh<E: Entry>(coloured: &ColouredNetlist, block: &[u8], out: &mut [E]) -> Result<i64, Refusal>
    requires { E.WIDTH * (8 * coloured.now.netlist.size.components) ≤ length out.old }
    ensures answer { result ≡ giving (judged (facts_of coloured.now.netlist) block.now) (constant (facts_of coloured.now.netlist) block.now) }
    ensures weights { out.new ≡ E.memory (up_to (8 * coloured.now.netlist.size.components) (entry_by (judged (facts_of coloured.now.netlist) block.now) (facts_of coloured.now.netlist) block.now)) ++ drop (E.WIDTH * (8 * coloured.now.netlist.size.components)) out.old }
{
    let entries = 8 * coloured.netlist.size.components;
    let outcome = judgement::judge(coloured, block, out);
    if outcome.is_err() {
        judgement::clear(out, entries);
    }
    outcome
}

/// Puts a block's result into lent memory: its number, its place, K and its weights, entries or bytes.
pub fn put<E: Entry>(coloured: &ColouredNetlist, block: &[u8], out: &mut [E])
    requires block { length block.now ≤ 4 * most_terms }
    requires room { E.WIDTH * result_size (facts_of coloured.now.netlist) ≤ length out.old }
    ensures { out.new ≡ over (E.memory (block_result (facts_of coloured.now.netlist) block.now)) out.old }
{
    let (head, weights) = out.split_at_mut(3 * E::WIDTH);
    let outcome = weigh(coloured, block, weights);
    judgement::write_entries(
        head,
        &[
            i64::from(outcome_number(outcome)),
            outcome_place(outcome) as i64,
            outcome.unwrap_or(0),
        ],
    );
}
