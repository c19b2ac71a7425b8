// The sums of the flows and the weights of a proposal, filled term by term.
#![tactic(auto)]

ghost use Rattle.std.specs.Prelude.{◌≡◌, ◌+◌, ◌*◌, ◌≤◌, ◌<◌, ◌%◌, ◌^◌, IfOk, length, pos, nat_abs};
ghost use Rattle.digits.specs.Packed.{joined, bytes};
ghost use Rattle.integers.specs.Sum.{same};
ghost use Rattle.integers.specs.Tables.{Near, Grown, Summed};
ghost use Rattle.component.specs.Limits.{most_colours, most_entries, most_flows};
ghost use Rattle.netlist.specs.View.{facts_of};
ghost use Rattle.equations.specs.Numbers.{mapped_factor, all_factor, factor_of, InTable};
ghost use Rattle.flows.specs.Terms.{terms, signed, component_of, index, multiplier, most_terms};
ghost use Rattle.sums.specs.Sums.{flow_factor, count_factor, term_verdict, terms_verdict, Added};

use component::{Kind, MOST_ENTRIES, MOST_FLOWS, Map, Table};
use equations::Equation;
use netlist::Netlist;
use refusals::Refusal;

/// The most terms of a proposal.
pub const MOST_TERMS: usize = 4096;

// A term of a proposal.
#[derive(Clone, Copy)]
struct Term {
    component: usize,
    index: usize,
    multiplier: i64,
}

// The four bytes from `at` on as one number, the first the highest. They are listed: with `digits::word` a check of 4,096 terms takes up to a fifth longer, and `as_chunks().0[k]` was left open.
fn word_at(proposal: &[u8], at: usize) -> u32
    requires { at + 4 ≤ length proposal.now }
    ensures { result ≡ joined (bytes 4) proposal.now at }
{
    u32::from_be_bytes([
        proposal[at],
        proposal[at + 1],
        proposal[at + 2],
        proposal[at + 3],
    ])
}

// Term k of a proposal.
#[tactic(auto, unfolding(flows::specs::Terms::component_of, flows::specs::Terms::index, flows::specs::Terms::multiplier))]
fn term_at(proposal: &[u8], k: usize) -> Term
    requires { 4 * k + 4 ≤ length proposal.now }
    ensures component { (result.component ≡ component_of proposal.now k) × (result.component < 128) }
    ensures index { (result.index ≡ index proposal.now k) × (result.index < 16) }
    ensures multiplier { result.multiplier ≡ multiplier proposal.now k }
{
    let word = word_at(proposal, 4 * k);
    Term {
        component: (word >> 25) as usize % 128,
        index: (word >> 21) as usize % 16,
        // the lower 21 bits, in two's complement
        multiplier: i64::from((word << 11).cast_signed() >> 11),
    }
}

// The sum of flow v grows by m. How near 0 the sums and m are stay clauses: the bound grows by stage, 2^60 before an equation, 2^61 before all flows of a channel
// and 2^62 here, so no one type carries it.
fn add_flow(sums: &mut [i64; MOST_FLOWS], v: usize, m: i64)
    requires in_sums { v < most_flows }
    requires near { Near most_flows (2 ^ 62) sums.old }
    requires small { nat_abs m ≤ 2 ^ 34 }
    ensures { Grown most_flows sums.old m (same v) sums.new }
{
    sums[v] += m;
}

// The weight of entry u grows by m.
fn add_weight(weights: &mut [i64; MOST_ENTRIES], u: usize, m: i64)
    requires in_weights { u < most_entries }
    requires near { Near most_entries (2 ^ 62) weights.old }
    requires small { nat_abs m ≤ 2 ^ 34 }
    ensures { Grown most_entries weights.old m (same u) weights.new }
{
    weights[u] += m;
}

// The flows of a channel, from `from` on, whose colours a map of component q takes to `to`.
fn add_mapped(
    sums: &mut [i64; MOST_FLOWS],
    table: &Table,
    colours: usize,
    from: usize,
    q: usize,
    map: Map,
    to: usize,
    m: i64,
)
    requires in_table { (colours ≤ most_colours) × (from + 8 ≤ most_flows) × (q < table.now.rows) }
    requires near { Near most_flows (2 ^ 61) sums.old }
    requires small { nat_abs m ≤ 2 ^ 34 }
    ensures { Grown most_flows sums.old m (mapped_factor table.now.bytes.now colours from q map to) sums.new }
{
    for d in 0..colours {
        // A flow that the map does not take there grows by 0, so that no branch hangs on what the map says.
        let step = if table.map_of(q, map, d) as usize == to {
            m
        } else {
            0
        };
        add_flow(sums, from + d, step);
    }
}

// All flows of a channel, from `from` on.
fn add_all(sums: &mut [i64; MOST_FLOWS], colours: usize, from: usize, m: i64)
    requires in_table { (colours ≤ most_colours) × (from + 8 ≤ most_flows) }
    requires near { Near most_flows (2 ^ 61) sums.old }
    requires small { nat_abs m ≤ 2 ^ 34 }
    ensures { Grown most_flows sums.old m (all_factor colours from) sums.new }
{
    for d in 0..colours {
        add_flow(sums, from + d, m);
    }
}

// The flows of an equation, each times m.
fn add_equation(
    sums: &mut [i64; MOST_FLOWS],
    table: &Table,
    colours: usize,
    equation: Equation,
    m: i64,
)
    requires in_table { (colours ≤ most_colours) × InTable table.now.rows equation }
    requires near { Near most_flows (2 ^ 60) sums.old }
    requires small { nat_abs m ≤ 2 ^ 34 }
    ensures { Grown most_flows sums.old m (factor_of table.now.bytes.now colours equation) sums.new }
{
    match equation {
        Equation::One(plus) => add_flow(sums, plus, m),
        Equation::Two(plus, minus) => {
            add_flow(sums, plus, m);
            add_flow(sums, minus, -m);
        }
        Equation::Three(plus, minus, also) => {
            add_flow(sums, plus, m);
            add_flow(sums, minus, -m);
            add_flow(sums, also, -m);
        }
        Equation::Mapped {
            plus,
            from,
            component,
            map,
            to,
        } => {
            add_flow(sums, plus, m);
            add_mapped(sums, table, colours, from, component, map, to, -m);
        }
        Equation::All(plus, minus) => {
            add_all(sums, colours, plus, m);
            add_all(sums, colours, minus, -m);
        }
    }
}

// Term k: the flows of its equation, each times its multiplier, and a queue's weight; or refusal 12.
fn add_term(
    sums: &mut [i64; MOST_FLOWS],
    weights: &mut [i64; MOST_ENTRIES],
    netlist: &Netlist,
    proposal: &[u8],
    k: usize,
) -> Result<(), Refusal>
    requires in_proposal { 4 * k + 4 ≤ length proposal.now }
    requires sums_near { Near most_flows (2 ^ 60) sums.old }
    requires weights_near { Near most_entries (2 ^ 60) weights.old }
    ensures verdict { result ≡ term_verdict (facts_of netlist.now) proposal.now k }
    ensures flows { IfOk result (λ done. Grown most_flows sums.old (multiplier proposal.now k) (flow_factor (facts_of netlist.now) proposal.now k) sums.new) }
    ensures counts { IfOk result (λ done. Grown most_entries weights.old (multiplier proposal.now k) (count_factor (facts_of netlist.now) proposal.now k) weights.new) }
{
    let Term {
        component,
        index,
        multiplier,
    } = term_at(proposal, k);
    let equation = equations::equation_named(&netlist.draft(), component, index, k)?;
    add_equation(
        sums,
        &netlist.table,
        netlist.size.colours,
        equation,
        multiplier,
    );
    if let Kind::Queue = netlist.table.kind(component) {
        add_weight(weights, 8 * component + index, multiplier);
    }
    Ok(())
}

/// Adds all terms up to the first that names no equation, into tables that come in as zeros; refused with 12 and the number of that term.
pub fn add_terms(
    sums: &mut [i64; MOST_FLOWS],
    weights: &mut [i64; MOST_ENTRIES],
    netlist: &Netlist,
    proposal: &[u8],
) -> Result<(), Refusal>
    requires short { length proposal.now ≤ 4 * most_terms }
    requires sums_empty { Summed most_flows (λ v. pos 0) sums.old }
    requires weights_empty { Summed most_entries (λ u. pos 0) weights.old }
    ensures verdict { result ≡ terms_verdict (facts_of netlist.now) proposal.now }
    ensures sums { IfOk result (λ done. Added (facts_of netlist.now) proposal.now (terms proposal.now) sums.new weights.new) }
{
    for k in 0..proposal.len() / 4 {
        add_term(sums, weights, netlist, proposal, k)?;
    }
    Ok(())
}
