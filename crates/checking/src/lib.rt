// check: the call on the sums of a fabric.
#![tactic(auto)]

ghost use Rattle.std.specs.Prelude.{◌≡◌, ◌/◌, length};
ghost use Rattle.reader.specs.File.{netlist_in};
ghost use Rattle.flows.specs.Flows.{constant};
ghost use Rattle.flows.specs.Verdict.{giving};
ghost use Rattle.judgement.specs.Judged.{written_by};
ghost use Rattle.checking.specs.Check.{check_verdict};

use judgement::Entry;
use reader::Buffers;
use refusals::Refusal;
use spread::ColouredNetlist;

/// What check answers, with room for so many entries: the constant K, or the first of the refusals 1 to 8, 11 to 14 and 23. Here and below no sets are lent: they
/// are worked out only where a flow is left.
#[tactic(auto, using(crate::proofs::Checking::checked_by_reading))]
pub fn check_answer(file: &[u8], proposal: &[u8], space: usize) -> Result<i64, Refusal>
    ensures { result ≡ giving (check_verdict file.now proposal.now space) (constant (netlist_in file.now) proposal.now) }
{
    let mut buffers = Buffers::new();
    let netlist = buffers.read(file)?.netlist;
    let coloured = ColouredNetlist::from(netlist);
    judgement::judge_answer(&coloured, proposal, space)
}

/// Checks a proposal and writes the weights: as entries, or as bytes, 8 for each, lowest first.
#[tactic(auto, using(crate::proofs::Checking::checked_by_reading, crate::proofs::Checking::written_by_reading))]
pub fn check<E: Entry>(file: &[u8], proposal: &[u8], weights: &mut [E]) -> Result<i64, Refusal>
    ensures constant { result ≡ giving (check_verdict file.now proposal.now (length weights.old / E.WIDTH)) (constant (netlist_in file.now) proposal.now) }
    ensures weights { weights.new ≡ written_by E.filled (check_verdict file.now proposal.now (length weights.old / E.WIDTH)) (netlist_in file.now) proposal.now weights.old }
{
    let mut buffers = Buffers::new();
    let netlist = buffers.read(file)?.netlist;
    let coloured = ColouredNetlist::from(netlist);
    judgement::judge(&coloured, proposal, weights)
}
