// reach: the call on the colours that can reach each channel.
#![tactic(auto)]

ghost use Rattle.std.specs.Prelude.{◌≡◌, ◌++◌, ◌≤◌, length, drop};
ghost use Rattle.digits.specs.UpTo.{up_to};
ghost use Rattle.netlist.specs.View.{facts_of};
ghost use Rattle.reach.specs.Rounds.{set_byte};
ghost use Rattle.reaching.specs.Reach.{reach_verdict, sets_after_reach};

use netlist::Netlist;
use reader::Buffers;
use refusals::{Refusal, room_for};

/// What reach answers, with room for so many sets.
#[tactic(auto, using(crate::proofs::Reaching::reach_by))]
pub fn reach_answer(file: &[u8], space: usize) -> Result<(), Refusal>
    ensures { result ≡ reach_verdict file.now space }
{
    let mut buffers = Buffers::new();
    let size = buffers.read(file)?.netlist.size;
    room_for(space, size.channels)
}

// The sets of a fabric that was read, into lent memory.
#[inline(never)]
fn put_sets(netlist: &Netlist, out: &mut [u8])
    requires { netlist.now.size.channels ≤ length out.old }
    ensures { out.new ≡ up_to netlist.now.size.channels (set_byte (facts_of netlist.now)) ++ drop netlist.now.size.channels out.old }
{
    let sets = spread::work_out(netlist);
    let channels = netlist.size.channels;
    out[..channels].copy_from_slice(&sets[..channels]);
}

/// Writes the set of each channel, a mask byte.
#[tactic(auto, using(crate::proofs::Reaching::reach_by, crate::proofs::Reaching::sets_by_reading))]
pub fn reach(file: &[u8], sets: &mut [u8]) -> Result<(), Refusal>
    ensures answer { result ≡ reach_verdict file.now (length sets.old) }
    ensures sets { sets.new ≡ sets_after_reach file.now sets.old }
{
    let mut buffers = Buffers::new();
    let netlist = buffers.read(file)?.netlist;
    room_for(sets.len(), netlist.size.channels)?;
    put_sets(&netlist, sets);
    Ok(())
}
