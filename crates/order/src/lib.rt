// A depth-first walk that puts signals into an order in which each stands after all that it depends on, or finds a circle.
// The graph is a lent table: signal s depends on those of its four entries that are below n; any other entry means none.
#![tactic(auto)]

ghost use Rattle.std.specs.Prelude.{◌≡◌, ◌+◌, ◌≤◌, ◌<◌, length, set, is_err};
ghost use Rattle.order.specs.Graph.{dep, OrderOf, most_signals};
ghost use Rattle.order.specs.Places.{SoundPlaces, Fresh, IsVisited, IsOrdered};

/// The most signals, two a channel.
pub const MOST_SIGNALS: usize = 510;

// Puts s at place c of the order, and returns the order's new count.
fn put(s: usize, place: &mut [u16], order: &mut [u16; MOST_SIGNALS], c: u16) -> u16
    requires { (s < length place.old) × (length place.old ≤ most_signals) × (c < most_signals) }
    ensures { (result ≡ c + 1) × (place.new ≡ set place.old s (c + 1)) × (order.new ≡ set order.old c s) }
{
    order[c as usize] = s as u16;
    place[s] = c + 1;
    c + 1
}

// Puts s, which is not in the order yet, and all that it depends on into the order, and says how many signals the order has then;
// none if it finds a walk of `depth` dependences from s.
// place[s] is 0 while s is not in the order, and then 1 + its place there: numbers, as the memory is filled with zeros at once. An entry that is none, or in the order, is passed over.
// The order and its count stay two: the walk hands the count back, and a vector's would lie in memory that each level lends on.
fn visit(
    deps: &[[u16; 4]; MOST_SIGNALS],
    s: usize,
    depth: usize,
    place: &mut [u16],
    order: &mut [u16; MOST_SIGNALS],
    count: u16,
) -> Option<u16>
    requires { Fresh (dep deps.now) s place.old order.old count }
    ensures { IsVisited (dep deps.now) s depth place.old place.new order.new result }
{
    if depth == 0 {
        return None;
    }
    let mut c = count;
    for &entry in &deps[s] {
        let d = usize::from(entry);
        if d < place.len() && place[d] == 0 {
            c = visit(deps, d, depth - 1, place, order, c)?;
        }
    }
    Some(put(s, place, order, c))
}

// Visits all signals, of which there are as many as places, that are not in the order yet; none if they hold a circle.
fn visit_all(
    deps: &[[u16; 4]; MOST_SIGNALS],
    place: &mut [u16],
    order: &mut [u16; MOST_SIGNALS],
) -> Option<u16>
    requires { SoundPlaces (dep deps.now) place.old order.old 0 }
    ensures { IsOrdered (dep deps.now) (length place.old) order.new result }
{
    let mut c = 0;
    for s in 0..place.len() {
        if place[s] == 0 {
            c = visit(deps, s, place.len(), place, order, c)?;
        }
    }
    Some(c)
}

/// What is wrong with a table that cannot be ordered: it holds a circle.
#[derive(Clone, Copy, Debug, PartialEq, Eq)]
pub struct Circular;

/// Puts the `n` signals of a table into the order, or finds that the table holds a circle.
pub fn order_of(
    deps: &[[u16; 4]; MOST_SIGNALS],
    n: usize,
    order: &mut [u16; MOST_SIGNALS],
) -> Result<(), Circular>
    requires { (n ≤ most_signals) × (n ≤ length order.old) }
    ensures { OrderOf (dep deps.now) n (is_err result) order.new }
{
    let mut place = [0; MOST_SIGNALS];
    visit_all(deps, &mut place[..n], order).ok_or(Circular)?;
    Ok(())
}
