// The order of the signals laid out for the steps: of each signal what its rule needs, so that a step looks nothing up.
#![tactic(auto)]

ghost use Rattle.std.specs.Prelude.{◌≡◌, ◌++◌, ◌*◌, ◌≤◌, ◌<◌, length, drop};
ghost use Rattle.digits.specs.UpTo.{up_to};
ghost use Rattle.netlist.specs.View.{facts_of};
ghost use Rattle.plan.specs.Plan.{planned};

use component::Port;
use netlist::Fabric;
use rules::Rule;

/// What a signal's rule needs: its name, which says whether it gives an offer or a take, the signal's channel, the component that gives it,
/// and the channels at that component's ports.
#[derive(Clone, Copy, Debug, PartialEq, Eq)]
pub struct Place {
    pub rule: Rule,
    pub channel: u8,
    pub component: u8,
    pub a: u8,
    pub b: u8,
    pub c: u8,
}

// The place of entry i of the order, whose signals and ends are numbers: signal 2x and 2x + 1 of channel x, end 3k + p at port p of component k.
fn place_at(fabric: &Fabric, i: usize) -> Place
    requires { i < 2 * fabric.now.netlist.size.channels }
    ensures { result ≡ planned (facts_of fabric.now.netlist) fabric.now.order.now i }
{
    let signal = fabric.order[i];
    let end = fabric.ends[signal as usize] - 1;
    let k = end as usize / 3;
    let table = fabric.netlist.table;
    Place {
        rule: Rule::at(table.kind(k), Port::from(end as usize % 3)),
        channel: (signal / 2) as u8,
        component: k as u8,
        a: table.port(k, Port::A),
        b: table.port(k, Port::B),
        c: table.port(k, Port::C),
    }
}

/// Lays out the order of an accepted fabric's signals, a place each.
#[tactic(auto, using(digits::proofs::UpTo::filled_more), unfolding(digits::specs::UpTo::up_to))]
pub fn lay_out(fabric: &Fabric, places: &mut [Place])
    requires { 2 * fabric.now.netlist.size.channels ≤ length places.old }
    ensures { places.new ≡
        up_to (2 * fabric.now.netlist.size.channels) (planned (facts_of fabric.now.netlist) fabric.now.order.now)
        ++ drop (2 * fabric.now.netlist.size.channels) places.old }
{
    for i in 0..2 * fabric.netlist.size.channels {
        places[i] = place_at(fabric, i);
    }
}
