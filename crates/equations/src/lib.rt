// The equation that a term names by component and index: its flows, or refusal 12.
#![tactic(auto)]

ghost use Rattle.std.specs.Prelude.{◌≡◌, ◌+◌, ◌*◌, ◌≤◌, ◌<◌};
ghost use Rattle.netlist.specs.View.{drawn};
ghost use Rattle.equations.specs.Numbers.{low_equation, high_equation, equation_of, equation_at, equation_named};
ghost use Rattle.equations.specs.declared.Equation.TheVariants.{Mapped};

use component::{Kind, Map, Port, Table};
use netlist::Draft;
use refusals::Refusal;

/// The left side of an equation. L(x,d) is the flow of channel x and colour d, by its number 8x + d.
#[derive(Clone, Copy, Debug, PartialEq, Eq)]
pub enum Equation {
    /// L
    One(usize),
    /// L - L
    Two(usize, usize),
    /// L - L - L
    Three(usize, usize, usize),
    /// L(plus) - the flows of the channel from `from` on whose colours the component's map takes to `to`
    Mapped {
        plus: usize,
        from: usize,
        component: usize,
        map: Map,
        to: usize,
    },
    /// all flows of one channel - all flows of another, each from its first on
    All(usize, usize),
}

// What an equation is made from: a component's number, its kind, the channels at its ports, and its mask.
#[derive(Clone, Copy)]
struct Component {
    number: usize,
    kind: Kind,
    a: u8,
    b: u8,
    c: u8,
    mask: u8,
}

// The number of L(x,d).
fn flow(x: u8, d: usize) -> usize
    requires { d < 8 }
    ensures { result ≡ 8 * x + d }
{
    8 * x as usize + d
}

// L(out,e) - the flows of port A that a map takes to e.
fn mapped(of: Component, out: u8, map: Map, e: usize) -> Equation
    requires { e < 8 }
    ensures { result ≡ Mapped (8 * out + e) (8 * of.a) of.number map e }
{
    Equation::Mapped {
        plus: flow(out, e),
        from: flow(of.a, 0),
        component: of.number,
        map,
        to: e,
    }
}

// The indexes 0 to 7 of each kind: a colour each.
#[tactic(auto, unfolding(crate::specs::Numbers::low_equation))]
fn low_equation(of: Component, colours: usize, i: usize, term: usize) -> Result<Equation, Refusal>
    requires { i < 8 }
    ensures { result ≡ low_equation of.kind of.a of.b of.c of.mask of.number colours i term }
{
    let Component { a, b, c, .. } = of;
    let mask = usize::from(of.mask);
    match of.kind {
        _ if colours <= i => Err(Refusal::NoEquation(term)),
        Kind::Source if component::has_colour(mask, i) => Err(Refusal::NoEquation(term)),
        Kind::Source => Ok(Equation::One(flow(a, i))),
        Kind::Sink => Err(Refusal::NoEquation(term)),
        Kind::Queue => Ok(Equation::Two(flow(b, i), flow(a, i))),
        Kind::Function | Kind::Fork => Ok(mapped(of, b, Map::First, i)),
        Kind::Join => Ok(mapped(of, c, Map::First, i)),
        Kind::Switch if component::has_colour(mask, i) => {
            Ok(Equation::Two(flow(b, i), flow(a, i)))
        }
        Kind::Switch => Ok(Equation::One(flow(b, i))),
        Kind::Merge => Ok(Equation::Three(flow(c, i), flow(a, i), flow(b, i))),
    }
}

// The indexes 8 to 15: a fork's and a switch's for their other output, a colour each, and a join's 8.
#[tactic(auto, unfolding(crate::specs::Numbers::high_equation))]
fn high_equation(of: Component, colours: usize, i: usize, term: usize) -> Result<Equation, Refusal>
    requires { (8 ≤ i) × (i < 16) }
    ensures { result ≡ high_equation of.kind of.a of.b of.c of.mask of.number colours i term }
{
    let Component { a, b, c, .. } = of;
    let d = i - 8;
    match of.kind {
        Kind::Join if i == 8 => Ok(Equation::All(flow(a, 0), flow(b, 0))),
        Kind::Fork if d < colours => Ok(mapped(of, c, Map::Second, d)),
        Kind::Switch if d < colours => {
            if component::has_colour(usize::from(of.mask), d) {
                Ok(Equation::One(flow(c, d)))
            } else {
                Ok(Equation::Two(flow(c, d), flow(a, d)))
            }
        }
        _ => Err(Refusal::NoEquation(term)),
    }
}

// The decision over kind and index: the equation of index `i` of a component, or 12 at the term that names it. The range first: one `match` on index and kind jumps twice a term,
// and a check of 4,096 terms took up to 1.3 times as long.
#[tactic(auto, unfolding(crate::specs::Numbers::equation_of))]
fn equation_of(of: Component, colours: usize, i: usize, term: usize) -> Result<Equation, Refusal>
    ensures { result ≡ equation_of of.kind of.a of.b of.c of.mask of.number colours i term }
{
    match i {
        0..=7 => low_equation(of, colours, i, term),
        8..=15 => high_equation(of, colours, i, term),
        _ => Err(Refusal::NoEquation(term)),
    }
}

// The equation of index `i` of component `q`.
#[tactic(auto, unfolding(crate::specs::Numbers::equation_at))]
fn equation_at(
    table: &Table,
    colours: usize,
    q: usize,
    i: usize,
    term: usize,
) -> Result<Equation, Refusal>
    requires { q < table.now.rows }
    ensures { result ≡ equation_at table.now.bytes.now q colours i term }
{
    let of = Component {
        number: q,
        kind: table.kind(q),
        a: table.port(q, Port::A),
        b: table.port(q, Port::B),
        c: table.port(q, Port::C),
        mask: table.mask(q),
    };
    equation_of(of, colours, i, term)
}

/// The equation of component `q` and index `i` that a term names; refused with 12 and the term's number if there is none.
#[tactic(auto, unfolding(crate::specs::Numbers::equation_named))]
pub fn equation_named(draft: &Draft, q: usize, i: usize, term: usize) -> Result<Equation, Refusal>
    ensures { result ≡ equation_named (drawn draft.now) q i term }
{
    if draft.size.components <= q {
        return Err(Refusal::NoEquation(term));
    }
    equation_at(&draft.table, draft.size.colours, q, i, term)
}
