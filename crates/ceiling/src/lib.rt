// ceiling: by a sum that is accepted, the most of one colour that can ever stand in one queue.
#![tactic(auto)]

ghost use Rattle.std.specs.Prelude.{◌≡◌, cond, ◌+◌, ◌*◌, Some, None};
ghost use Rattle.netlist.specs.View.{facts_of};
ghost use Rattle.reader.specs.File.{netlist_in};
ghost use Rattle.flows.specs.Verdict.{giving};
ghost use Rattle.ceiling.specs.Ceiling.{ceiling, no_place, placed, ceiling_verdict};

use component::{Kind, MOST_ENTRIES};
use netlist::Netlist;
use reader::Buffers;
use refusals::Refusal;
use spread::ColouredNetlist;

// The entry of a queue and a colour, 8 * queue + colour as the document numbers them; none where that is no queue, or no colour of the fabric.
fn entry_of(netlist: &Netlist, queue: u64, colour: u64) -> Option<usize>
    ensures { result ≡ cond (no_place (facts_of netlist.now) queue colour) None (Some (8 * queue + colour)) }
{
    let size = netlist.size;
    if size.components as u64 <= queue || size.colours as u64 <= colour {
        return None;
    }
    match netlist.table.kind(queue as usize) {
        Kind::Queue => Some(8 * queue as usize + colour as usize),
        _ => None,
    }
}

// The ceiling on a fabric that was read. No sets are lent: they are worked out only where a flow is left.
fn ceiling_of(netlist: &Netlist, proposal: &[u8], queue: u64, colour: u64) -> Result<usize, Refusal>
    ensures { result ≡ giving (placed (facts_of netlist.now) proposal.now queue colour) (ceiling (facts_of netlist.now) proposal.now queue colour) }
{
    let coloured = ColouredNetlist::from(*netlist);
    let Some(entry) = entry_of(netlist, queue, colour) else {
        // What is wrong with the proposal is said first.
        judgement::judge_answer(&coloured, proposal, MOST_ENTRIES)?;
        return Err(Refusal::NotAQueue);
    };
    let weighing = judgement::judge_entry(&coloured, proposal, entry)?;
    if weighing.weight == 0 {
        return Err(Refusal::WeightNotPositive);
    }
    let left = headroom::raise(weighing.constant, weighing.owed);
    let most = netlist.table.capacity(queue as usize) as usize;
    Ok(headroom::bounded(left, weighing.weight, most))
}

/// The ceiling of a colour in a queue: refused with 1 to 8, 11 to 14, with 31 if that is no queue or no colour of the fabric, and with 32 if its weight is not
/// above 0.
#[tactic(auto, using(crate::proofs::Answer::ceiling_by_reading))]
pub fn ceiling(file: &[u8], proposal: &[u8], queue: u64, colour: u64) -> Result<usize, Refusal>
    ensures { result ≡ giving (ceiling_verdict file.now proposal.now queue colour) (ceiling (netlist_in file.now) proposal.now queue colour) }
{
    let mut buffers = Buffers::new();
    let netlist = buffers.read(file)?.netlist;
    ceiling_of(&netlist, proposal, queue, colour)
}
