// Whether a state is good and choices are allowed: the lowest that is not.
#![tactic(auto)]

ghost use Rattle.std.specs.Prelude.{◌≡◌, ℕ, Bool, not, ◌+◌, ◌*◌, ◌/◌, ◌≤◌, ◌<◌, length, get_or};
ghost use Rattle.record.specs.Table.{row};
ghost use Rattle.component.specs.Row.{kind};
ghost use Rattle.component.specs.Limits.{most_colours, most_components};
ghost use Rattle.netlist.specs.View.{drawn};
ghost use Rattle.cells.specs.Good.{emitted, good_byte, all, good_cell, bad_component};
ghost use Rattle.cells.specs.Choices.{choice_at, bad_choice};
ghost use Rattle.cells.specs.Cells.{cell_size};
ghost use Rattle.good.specs.Sets.{in_set, choice_set, ChoiceSets};
ghost use Rattle.good.specs.First.{first_below};
ghost use Rattle.digits.specs.Least.{least};

use cells::CELL_SIZE;
use component::{Kind, MOST_COMPONENTS, Table};
use netlist::Draft;

// 0, or 1 + an emitted colour.
fn is_emitted(table: &Table, k: usize, b: u8) -> bool
    requires { k < table.now.rows }
    ensures { result ≡ emitted (row table.now.bytes.now k) b }
{
    if b == 0 {
        return true;
    }
    let d = usize::from(b - 1);
    d < 8 && component::has_colour(usize::from(table.mask(k)), d)
}

// Whether byte 0 of a component is good.
#[tactic(auto, unfolding(cells::specs::Good::good_byte))]
fn first_good(table: &Table, k: usize, b: u8) -> bool
    requires { k < table.now.rows }
    ensures { (c n : ℕ) → result ≡ good_byte (kind (row table.now.bytes.now k)) (row table.now.bytes.now k) c n 0 b }
{
    match table.kind(k) {
        Kind::Source => is_emitted(table, k, b),
        Kind::Sink => b < 2,
        Kind::Queue => b <= table.capacity(k),
        Kind::Merge => b < 3,
        Kind::Function | Kind::Fork | Kind::Join | Kind::Switch => b == 0,
    }
}

// Whether every number below n passes. All are asked, since a loop without a branch is faster than one that ends early.
fn every<F: Fn(usize) -> bool>(n: usize, passes: F) -> bool
    requires { (k : ℕ) → k < n → F.pre passes k }
    ensures { (test : ℕ → Bool) → ((k : ℕ) (b : Bool) → k < n → F.post passes k b → b ≡ test k) → result ≡ all n test }
{
    let mut good = true;
    for k in 0..n {
        good &= passes(k);
    }
    good
}

// Whether a component's bytes are good.
fn good_cell(table: &Table, k: usize, colours: u8, cell: &[u8; CELL_SIZE]) -> bool
    requires { k < table.now.rows }
    ensures { result ≡ good_cell colours (row table.now.bytes.now k) cell.now }
{
    if !first_good(table, k, cell[0]) {
        return false;
    }
    match table.kind(k) {
        Kind::Queue => {
            // 63 - n is worked out as a byte, which lets the loop of zeros take several bytes at a time
            let n = cell[0].min(63);
            let count = usize::from(n);
            let rest = usize::from(63 - n);
            every(count, |j| cell[1 + j] < colours) & every(rest, |j| cell[count + 1 + j] == 0)
        }
        _ => every(63, |j| cell[1 + j] == 0),
    }
}

/// The lowest component whose bytes are not good, of a state with 64 bytes for each component.
// The state's length stays a clause: the memory is lent through the C interface and may be of any length.
#[tactic(auto, unfolding(cells::specs::Good::bad_component))]
pub fn first_bad_cell(draft: &Draft, state: &[u8]) -> Option<usize>
    requires colours { draft.now.size.colours ≤ most_colours }
    requires long { cell_size * draft.now.size.components ≤ length state.now }
    ensures { result ≡ first_below (bad_component (drawn draft.now) state.now) draft.now.size.components }
{
    // at most 8: a cast is plainer here than a conversion that could fail
    let colours = draft.size.colours as u8;
    search::first(draft.size.components, |k| {
        !good_cell(&draft.table, k, colours, cells::cell(state, k))
    })
}

// Whether a choice is in a set: bit 8 - b of it. The remainders keep the shift below 16 for every byte, so that nothing jumps on b.
#[tactic(auto, unfolding(crate::specs::Sets::in_set))]
fn in_set(set: u16, b: u8) -> bool
    ensures { result ≡ in_set set b }
{
    (b < 9) & ((set >> ((24 - b % 16) % 16)) % 2 == 1)
}

// The choices of a component: source 0 or 1 + an emitted colour; sink and merge 0 or 1; others 0.
#[tactic(auto, unfolding(crate::specs::Sets::choice_set))]
fn choice_set(kind: Kind, mask: u8) -> u16
    ensures { result ≡ choice_set kind mask }
{
    match kind {
        Kind::Source => 256 + u16::from(mask),
        Kind::Sink | Kind::Merge => 384,
        Kind::Queue | Kind::Function | Kind::Fork | Kind::Join | Kind::Switch => 256,
    }
}

// The choices of each component.
fn choice_sets(table: &Table, components: usize) -> [u16; MOST_COMPONENTS]
    requires { (components ≤ table.now.rows) × (components ≤ most_components) }
    ensures { ChoiceSets table.now.bytes.now components result }
{
    let mut sets = [0; MOST_COMPONENTS];
    for k in 0..components {
        sets[k] = choice_set(table.kind(k), table.mask(k));
    }
    sets
}

// Whether the choices of step j are allowed.
fn step_allowed(sets: &[u16; MOST_COMPONENTS], components: usize, choices: &[u8], j: usize) -> bool
    requires { (components ≤ most_components) × (components * j + components ≤ length choices.now) }
    ensures { result ≡ all components (λ k. in_set (get_or sets.now k 0) (get_or choices.now (components * j + k) 0)) }
{
    every(components, |k| in_set(sets[k], choices[components * j + k]))
}

// So many steps at the front have allowed choices: all, or those before the first that has not. There is no branch in a step.
#[tactic(auto, using(search::proofs::Laws::first_or_n))]
fn allowed_steps(sets: &[u16; MOST_COMPONENTS], components: usize, choices: &[u8]) -> usize
    requires { (0 < components) × (components ≤ most_components) }
    ensures { result ≡ least (λ j. not (all components (λ k. in_set (get_or sets.now k 0) (get_or choices.now (components * j + k) 0)))) (length choices.now / components) }
{
    let steps = choices.len() / components;
    search::first(steps, |j| !step_allowed(sets, components, choices, j)).unwrap_or(steps)
}

/// The lowest offset of a choice that is not allowed, of choices that are one byte for each component, step after step.
pub fn first_bad_choice(draft: &Draft, choices: &[u8]) -> Option<usize>
    requires some { 0 < draft.now.size.components }
    requires few { draft.now.size.components ≤ most_components }
    ensures { result ≡ first_below (bad_choice (drawn draft.now) choices.now) (length choices.now) }
{
    let n = draft.size.components;
    let sets = choice_sets(&draft.table, n);
    // after the steps at the front, one choice after the other
    let from = n * allowed_steps(&sets, n, choices);
    let o = search::first(choices.len() - from, |i| {
        !in_set(sets[(from + i) % n], choices[from + i])
    })?;
    Some(from + o)
}
