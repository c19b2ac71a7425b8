// The verdict on a proposal for a fabric that was read: flows that are left, the weights and the constant.
#![tactic(auto)]

ghost use Rattle.std.specs.Prelude.{◌≡◌, ◌+◌, ◌*◌, ◌/◌, ◌%◌, ◌≤◌, ◌<◌, ◌^◌, IfOk, not, ◌||◌, eqb, ltb, length, get_or, pos, nat_abs};
ghost use Rattle.integers.specs.Sum.{sum_to};
ghost use Rattle.integers.specs.Tables.{Summed};
ghost use Rattle.component.specs.Limits.{most_entries};
ghost use Rattle.netlist.specs.View.{facts_of};
ghost use Rattle.flows.specs.Flows.{constant};
ghost use Rattle.flows.specs.Terms.{most_terms};
ghost use Rattle.flows.specs.Verdict.{giving, judged, judged_within};
ghost use Rattle.judgement.specs.Judged.{share_of, sums_verdict, Weighed, weight_in, weighing_in, weighing_of, written_by};

pub mod entry;

use component::{Kind, MOST_ENTRIES, MOST_FLOWS};
pub use entry::Entry;
use headroom::Weights;
use netlist::Netlist;
use refusals::{Refusal, room_for};
use spread::ColouredNetlist;
use sums::MOST_TERMS;

// One component's share of the constant.
fn share(weights: &Weights, netlist: &Netlist, q: usize) -> i64
    requires { q < netlist.now.size.components }
    ensures value { result ≡ share_of netlist.now.table.bytes.now weights.now.entries.now q }
    ensures near { nat_abs result ≤ 2 ^ 48 }
{
    let table = netlist.table;
    match table.kind(q) {
        Kind::Queue => weights.of(q, table.fill_colour(q) as usize) * table.filling(q) as i64,
        _ => 0,
    }
}

// The constant K.
fn constant_of(weights: &Weights, netlist: &Netlist) -> i64
    ensures { result ≡ sum_to netlist.now.size.components (share_of netlist.now.table.bytes.now weights.now.entries.now) }
{
    let mut constant = 0;
    for q in 0..netlist.size.components {
        constant += share(weights, netlist, q);
    }
    constant
}

// 13 and 14 from the sums of all terms, or the constant.
fn judge_sums(
    sums: &[i64; MOST_FLOWS],
    weights: &Weights,
    coloured: &ColouredNetlist,
) -> Result<i64, Refusal>
    ensures { result ≡ giving (sums_verdict (facts_of coloured.now.netlist) sums.now weights.now.entries.now) (sum_to coloured.now.netlist.size.components (share_of coloured.now.netlist.table.bytes.now weights.now.entries.now)) }
{
    if let Some(flow) = leftover::flow_left(sums, coloured) {
        return Err(Refusal::FlowLeft(flow));
    }
    let entries = weights.entries;
    if leftover::lowest(entries, 8 * coloured.netlist.size.components).is_none() {
        return Err(Refusal::NoWeight);
    }
    Ok(constant_of(weights, &coloured.netlist))
}

// 11 proposal length no multiple of 4, or over 16,384.
fn bad_length(n: usize) -> bool
    ensures { result ≡ (not (eqb (n % 4) 0) || ltb (4 * most_terms) n) }
{
    n % 4 != 0 || 4 * MOST_TERMS < n
}

// The constant of a proposal, and its weights in memory that comes in as zeros.
fn weigh(
    coloured: &ColouredNetlist,
    proposal: &[u8],
    weights: &mut [i64; MOST_ENTRIES],
) -> Result<i64, Refusal>
    requires weights_empty { Summed most_entries (λ u. pos 0) weights.old }
    ensures constant { result ≡ giving (judged (facts_of coloured.now.netlist) proposal.now) (constant (facts_of coloured.now.netlist) proposal.now) }
    ensures weights { IfOk result (λ k. Weighed (facts_of coloured.now.netlist) proposal.now weights.new) }
{
    if bad_length(proposal.len()) {
        return Err(Refusal::ProposalLength);
    }
    let mut flow_sums = [0i64; MOST_FLOWS];
    sums::add_terms(&mut flow_sums, weights, &coloured.netlist, proposal)?;
    judge_sums(&flow_sums, &Weights { entries: weights }, coloured)
}

/// Writes entries at the front of lent memory.
pub fn write_entries<E: Entry>(out: &mut [E], entries: &[i64])
    requires { E.WIDTH * length entries.now ≤ length out.old }
    ensures { out.new ≡ E.filled (length entries.now) (λ u. get_or entries.now u (pos 0)) out.old }
{
    for (u, &v) in entries.iter().enumerate() {
        E::write(out, u, v);
    }
}

/// Makes the first `n` entries of lent memory 0.
pub fn clear<E: Entry>(out: &mut [E], n: usize)
    requires { E.WIDTH * n ≤ length out.old }
    ensures { out.new ≡ E.filled n (λ u. pos 0) out.old }
{
    out[..E::WIDTH * n].fill(E::ZERO);
}

/// The constant K of a proposal, and its weights into lent memory; refused with 11 to 14, and with 23 if the memory is too short for them. The weights stand in
/// the frame of the functions below alone, and no frame that reads a file holds them.
#[inline(never)]
pub fn judge<E: Entry>(
    coloured: &ColouredNetlist,
    proposal: &[u8],
    out: &mut [E],
) -> Result<i64, Refusal>
    ensures constant { result ≡ giving (judged_within (facts_of coloured.now.netlist) proposal.now (length out.old / E.WIDTH)) (constant (facts_of coloured.now.netlist) proposal.now) }
    ensures weights { out.new ≡ written_by E.filled (judged_within (facts_of coloured.now.netlist) proposal.now (length out.old / E.WIDTH)) (facts_of coloured.now.netlist) proposal.now out.old }
{
    let mut weights = [0i64; MOST_ENTRIES];
    let constant = weigh(coloured, proposal, &mut weights)?;
    let entries = 8 * coloured.netlist.size.components;
    room_for(out.len() / E::WIDTH, entries)?;
    write_entries(out, &weights[..entries]);
    Ok(constant)
}

/// The same with room for so many entries, and nothing is written.
#[inline(never)]
pub fn judge_answer(
    coloured: &ColouredNetlist,
    proposal: &[u8],
    space: usize,
) -> Result<i64, Refusal>
    ensures { result ≡ giving (judged_within (facts_of coloured.now.netlist) proposal.now space) (constant (facts_of coloured.now.netlist) proposal.now) }
{
    let mut weights = [0i64; MOST_ENTRIES];
    let constant = weigh(coloured, proposal, &mut weights)?;
    room_for(space, 8 * coloured.netlist.size.components)?;
    Ok(constant)
}

/// What an accepted proposal says of one entry: its constant, how far the entry's weight is above 0, and where it is above 0 what the weights below 0 come to with
/// every queue full.
// The weight is a number, of which 0 is one, and no Option: ceiling refuses 0 with 32.
#[derive(Clone, Copy, Debug, PartialEq, Eq)]
pub struct Weighing {
    pub constant: i64,
    pub weight: usize,
    pub owed: usize,
}

// How far the weight of entry u is above 0; 0 where there is no such entry.
fn weight_of(weights: &Weights, netlist: &Netlist, u: usize) -> usize
    ensures { result ≡ weight_in (facts_of netlist.now) weights.now.entries.now u }
{
    if 8 * netlist.size.components <= u {
        return 0;
    }
    headroom::above_zero(weights.entries[u])
}

fn asked(constant: i64, weights: &Weights, netlist: &Netlist, u: usize) -> Weighing
    ensures value { result ≡ weighing_in constant (facts_of netlist.now) weights.now.entries.now u }
    ensures near { result.owed ≤ 2 ^ 58 }
{
    let weight = weight_of(weights, netlist, u);
    if weight == 0 {
        return Weighing {
            constant,
            weight,
            owed: 0,
        };
    }
    Weighing {
        constant,
        weight,
        owed: headroom::owed_by_all(weights, netlist),
    }
}

/// The constant of a proposal, and what it says of entry `u`; refused with 11 to 14.
#[inline(never)]
pub fn judge_entry(
    coloured: &ColouredNetlist,
    proposal: &[u8],
    u: usize,
) -> Result<Weighing, Refusal>
    ensures value { result ≡ giving (judged (facts_of coloured.now.netlist) proposal.now) (weighing_of (facts_of coloured.now.netlist) proposal.now u) }
    ensures near { IfOk result (λ weighing. weighing.owed ≤ 2 ^ 58) }
{
    let mut weights = [0i64; MOST_ENTRIES];
    let constant = weigh(coloured, proposal, &mut weights)?;
    let weights = Weights { entries: &weights };
    Ok(asked(constant, &weights, &coloured.netlist, u))
}
