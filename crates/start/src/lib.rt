// Start writes fillings and nothing held.
#![tactic(auto)]

ghost use Rattle.std.specs.Prelude.{◌≡◌, ◌≤◌, ◌<◌, length};
ghost use Rattle.component.specs.declared.kinds.Kind.TheVariants.{Queue};
ghost use Rattle.record.specs.Table.{row};
ghost use Rattle.component.specs.Row.{kind, filling};
ghost use Rattle.netlist.specs.View.{drawn};
ghost use Rattle.cells.specs.Cells.{cell_size};
ghost use Rattle.cells.specs.Start.{start_cell, started};
ghost use Rattle.start.specs.Startable.{Startable};

use cells::CELL_SIZE;
use component::{Kind, Table};
use netlist::Draft;

// Writes a component's bytes at start: a queue's filling, and nothing held. The cell is a part of lent bytes, as in `state::update`.
#[tactic(auto, unfolding(cells::specs::Start::start_cell, cells::specs::Cells::cell_with))]
fn start_cell(table: &Table, k: usize, cell: &mut [u8])
    requires row { k < table.now.rows }
    requires long { length cell.old ≡ cell_size }
    requires filling { kind (row table.now.bytes.now k) ≡ Queue → filling (row table.now.bytes.now k) ≤ 63 }
    ensures { cell.new ≡ start_cell (kind (row table.now.bytes.now k)) (row table.now.bytes.now k) }
{
    cell.fill(0);
    if table.kind(k) == Kind::Queue {
        let n = table.filling(k);
        cell[0] = n;
        cell[1..=usize::from(n)].fill(table.fill_colour(k));
    }
}

/// Writes the state at start, 64 bytes for each component. Memory past it keeps its bytes.
pub fn write_start(draft: &Draft, state: &mut [u8])
    requires start { Startable draft.now.table.bytes.now draft.now.size.components state.old }
    ensures { state.new ≡ started (drawn draft.now) state.old }
{
    for k in 0..draft.size.components {
        let at = CELL_SIZE * k;
        start_cell(&draft.table, k, &mut state[at..at + CELL_SIZE]);
    }
}
