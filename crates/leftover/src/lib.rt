// The search for a flow that is left: in a table of sums, inside the colour sets.
#![tactic(auto)]

ghost use Rattle.std.specs.Prelude.{◌≡◌, ◌*◌, ◌≤◌, not, length};
ghost use Rattle.integers.specs.Sum.{is_zero};
ghost use Rattle.search.specs.First.{first};
ghost use Rattle.component.specs.Limits.{most_flows};
ghost use Rattle.netlist.specs.View.{facts_of};
ghost use Rattle.leftover.specs.Leftover.{not_zero, Zeros, left_in, left_inside};

use component::MOST_FLOWS;
use spread::ColouredNetlist;

fn not_zero(entry: i64) -> bool
    ensures { result ≡ not (is_zero entry) }
{
    entry != 0
}

/// The lowest of the first `n` entries that is not 0.
// n bounds the search and not the memory: a table holds the flows of the largest fabric.
pub fn lowest(entries: &[i64], n: usize) -> Option<usize>
    requires { n ≤ length entries.now }
    ensures { result ≡ first (not_zero entries.now) n }
{
    search::first(n, |v| not_zero(entries[v]))
}

// The lowest of the first n flows that is left inside sets. Below flow `from` none is left.
fn lowest_in(sums: &[i64; MOST_FLOWS], sets: &[u8], from: usize, n: usize) -> Option<usize>
    requires flows { (from ≤ n) × (n ≤ most_flows) × (n ≤ 8 * length sets.now) }
    requires zeros { Zeros sums.now from }
    ensures { result ≡ first (left_in sums.now sets.now) n }
{
    let i = search::first(n - from, |i| {
        let v = from + i;
        not_zero(sums[v]) && component::has_colour(sets[v / 8] as usize, v % 8)
    })?;
    Some(from + i)
}

/// The lowest flow that is left inside the sets, as 8 times its channel plus its colour. The sets are looked at only where some flow is left, and worked out here
/// if they are not yet.
pub fn flow_left(sums: &[i64; MOST_FLOWS], coloured: &ColouredNetlist) -> Option<usize>
    ensures { result ≡ first (left_inside (facts_of coloured.now.netlist) sums.now) (8 * coloured.now.netlist.size.channels) }
{
    let flows = 8 * coloured.netlist.size.channels;
    let first = lowest(sums, flows)?;
    match coloured.sets {
        Some(sets) => lowest_in(sums, sets, first, flows),
        None => {
            let sets = spread::work_out(&coloured.netlist);
            lowest_in(sums, &sets, first, flows)
        }
    }
}
