// What the file side, the step side and the sum side stand on: a fabric that was read, as a value that carries what holds of it.
#![tactic(auto)]

ghost use Rattle.std.specs.Prelude.{◌≡◌, ◌*◌, ◌≤◌, length};
ghost use Rattle.record.specs.Sizes.{row_size};
ghost use Rattle.netlist.specs.Netlist.{netlist_of};
ghost use Rattle.netlist.specs.Accepted.{AcceptedNetlist, AcceptedFabric};

use component::Table;
use order::MOST_SIGNALS;

/// The numbers of a fabric's header.
#[derive(Clone, Copy, Debug, PartialEq, Eq)]
pub struct Size {
    pub colours: usize,
    pub channels: usize,
    pub components: usize,
}

/// The numbers of a fabric, and a table with a row for each component. It need not be accepted: for functions that do not ask that it
/// was.
#[derive(Clone, Copy, Debug)]
pub struct Draft<'a> {
    pub size: Size,
    pub table: Table<'a>,
    pub ghost rows: { size.components ≤ table.rows },
}

/// A fabric that was accepted: its numbers, and its open table.
#[derive(Clone, Copy, Debug)]
pub struct Netlist<'a> {
    pub size: Size,
    pub table: Table<'a>,
    pub ghost same: { table.rows ≡ size.components },
    pub ghost long: { length table.bytes.now ≡ row_size * size.components },
    pub ghost accepted: { ∥ AcceptedNetlist (netlist_of size table.bytes.now) ∥₁ },
}

impl<'a> Netlist<'a> {
    /// Its numbers and its table, for a function that does not ask that it was accepted.
    pub fn draft(&self) -> Draft<'a>
        ensures { (result.size ≡ self.now.size) × (result.table ≡ self.now.table) }
    {
        Draft {
            size: self.size,
            table: self.table,
        }
    }
}

/// An accepted fabric with 1 + the end that gives each signal, and an order of the signals.
#[derive(Clone, Copy)]
pub struct Fabric<'a> {
    pub netlist: Netlist<'a>,
    pub ends: &'a [u16],
    pub order: &'a [u16; MOST_SIGNALS],
    pub ghost wires: { ∥ AcceptedFabric (netlist_of netlist.size netlist.table.bytes.now) ends.now order.now ∥₁ },
}
