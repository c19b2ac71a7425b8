// What a sum leaves for one place: its constant and, with every queue full, what the weights below 0 come to.
#![tactic(auto)]

ghost use Rattle.std.specs.Prelude.{◌≡◌, ◌+◌, ◌*◌, ◌/◌, ◌^◌, ◌≤◌, ◌<◌, min, get_or, pos, nat_abs, ◌+ℤ◌};
ghost use Rattle.integers.specs.Sign.{above_zero, below_zero};
ghost use Rattle.integers.specs.Tables.{Near};
ghost use Rattle.integers.specs.Total.{total};
ghost use Rattle.component.specs.Limits.{most_colours, most_components, most_entries};
ghost use Rattle.netlist.specs.View.{facts_of};
ghost use Rattle.headroom.specs.Headroom.{owed_of};

use component::MOST_ENTRIES;
use netlist::Netlist;

/// How far a number is above 0, else 0.
pub fn above_zero(v: i64) -> usize
    ensures { result ≡ above_zero v }
{
    v.max(0) as usize
}

// How far it is below 0, else 0.
fn below_zero(v: i64) -> usize
    ensures { result ≡ below_zero v }
{
    v.min(0).unsigned_abs() as usize
}

/// A proposal's weights, 8 for each component. Sums of them fit.
#[derive(Clone, Copy, Debug)]
pub struct Weights<'a> {
    pub entries: &'a [i64; MOST_ENTRIES],
    pub ghost near: { Near most_entries (2 ^ 40) entries.now },
}

impl Weights<'_> {
    /// The weight of colour `d` in component `q`. The document numbers the entries, and the lent table holds them, as 8 * q + d.
    pub fn of(&self, q: usize, d: usize) -> i64
        requires { (q < most_components) × (d < most_colours) }
        ensures value { result ≡ get_or self.now.entries.now (8 * q + d) (pos 0) }
        ensures near { nat_abs result ≤ 2 ^ 40 }
    {
        self.entries[8 * q + d]
    }
}

// One queue's weights below 0, each times its capacity.
fn owed_by(weights: &Weights, q: usize, colours: usize, capacity: usize) -> usize
    requires { (q < most_components) × (colours ≤ most_colours) × (capacity < 256) }
    ensures value { result ≡ total colours (λ d. below_zero (get_or weights.now.entries.now (8 * q + d) (pos 0)) * capacity) }
    ensures near { result ≤ 2 ^ 51 }
{
    let mut owed = 0;
    for d in 0..colours {
        owed += below_zero(weights.of(q, d)) * capacity;
    }
    owed
}

/// The weights below 0 of all queues, signs dropped, each times its queue's capacity.
pub fn owed_by_all(weights: &Weights, netlist: &Netlist) -> usize
    ensures value { result ≡ owed_of (facts_of netlist.now) (λ q d. get_or weights.now.entries.now (8 * q + d) (pos 0)) }
    ensures near { result ≤ 2 ^ 58 }
{
    let mut owed = 0;
    for q in 0..netlist.size.components {
        owed += owed_by(
            weights,
            q,
            netlist.size.colours,
            netlist.table.capacity(q) as usize,
        );
    }
    owed
}

/// A constant with what is owed added, where that is not below 0.
pub fn raise(constant: i64, owed: usize) -> usize
    requires { (below_zero constant ≤ above_zero constant + owed) × (owed ≤ 2 ^ 58) }
    ensures { result ≡ above_zero (constant +ℤ pos owed) }
{
    above_zero(constant) + owed - below_zero(constant)
}

/// The headroom divided by the weight, rounding down, and at most the capacity.
pub fn bounded(headroom: usize, weight: usize, most: usize) -> usize
    requires { 0 < weight }
    ensures { result ≡ min (headroom / weight) most }
{
    (headroom / weight).min(most)
}
