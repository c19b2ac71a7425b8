// check_many: the call on many proposals for one fabric.
#![tactic(auto)]

ghost use Rattle.std.specs.Prelude.{◌≡◌, ◌/◌, length};
ghost use Rattle.refusals.specs.Refusals.{first_refusal};
ghost use Rattle.netlist.specs.View.{facts_of};
ghost use Rattle.many.specs.Many.{many_tests, many_verdict, after_many};

use blocks::blocks_in;
use judgement::Entry;
use netlist::Netlist;
use reader::Buffers;
use refusals::{Refusal, room_for};

// 33 for the blocks of a file, and 23 for the results of all of them.
fn test_blocks(netlist: &Netlist, proposals: &[u8], space: usize) -> Result<(), Refusal>
    ensures { result ≡ first_refusal (many_tests (facts_of netlist.now) proposals.now space) }
{
    let blocks = blocks_in(proposals)?;
    room_for(space, blocks * result::result_size(netlist.size))
}

/// What check_many answers, with room for so many entries.
#[tactic(auto, using(crate::proofs::Many::many_outcome))]
pub fn check_many_answer(file: &[u8], proposals: &[u8], space: usize) -> Result<(), Refusal>
    ensures { result ≡ many_verdict file.now proposals.now space }
{
    let mut buffers = Buffers::new();
    let netlist = buffers.read(file)?.netlist;
    test_blocks(&netlist, proposals, space)
}

/// Checks each block of a file and puts the results into lent memory, entries or bytes.
#[tactic(auto, using(crate::proofs::Many::many_outcome, crate::proofs::Many::many_memory))]
pub fn check_many<E: Entry>(file: &[u8], proposals: &[u8], results: &mut [E]) -> Result<(), Refusal>
    ensures answer { result ≡ many_verdict file.now proposals.now (length results.old / E.WIDTH) }
    ensures results { results.new ≡ after_many E.WIDTH E.memory file.now proposals.now results.old }
{
    let mut buffers = Buffers::new();
    let netlist = buffers.read(file)?.netlist;
    test_blocks(&netlist, proposals, results.len() / E::WIDTH)?;
    results::write_results(&netlist, proposals, results);
    Ok(())
}
