// The results of all blocks of a file, for a fabric that was read.
#![tactic(auto)]

ghost use Rattle.std.specs.Prelude.{◌≡◌, false, ◌*◌, ◌≤◌, length};
ghost use Rattle.netlist.specs.View.{facts_of};
ghost use Rattle.blocks.specs.Blocks.{blocks, bad_blocks, each_block};
ghost use Rattle.result.specs.Result.{result_size, block_result, over};

use blocks::split_block;
use judgement::Entry;
use netlist::Netlist;
use spread::ColouredNetlist;

/// Puts the results of the blocks that fill a file into lent memory, one after the other. The colour sets are worked out once for all of them.
#[inline(never)]
pub fn write_results<E: Entry>(netlist: &Netlist, file: &[u8], out: &mut [E])
    requires filled { bad_blocks file.now ≡ false }
    requires room { E.WIDTH * (blocks file.now * result_size (facts_of netlist.now)) ≤ length out.old }
    ensures { out.new ≡ over (E.memory (each_block (block_result (facts_of netlist.now)) file.now (blocks file.now))) out.old }
{
    let sets = spread::work_out(netlist);
    let coloured = ColouredNetlist {
        netlist: *netlist,
        sets: Some(&sets),
    };
    let each = E::WIDTH * result::result_size(netlist.size);
    // An iterator over the blocks would say no more than `split_block` does. The place is counted: where `out` is what `split_at_mut` left instead, no invariant
    // names the results before it.
    let mut rest = file;
    let mut to = 0;
    while let Some((block, after)) = split_block(rest) {
        let (_, behind) = out.split_at_mut(to);
        result::put(&coloured, block, behind);
        rest = after;
        to += each;
    }
}
