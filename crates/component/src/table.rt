// The open table of a fabric, and the fields of a row by name.

ghost use Rattle.std.specs.Prelude.{◌≡◌, ◌+◌, ◌*◌, ◌≤◌, ◌<◌, length, get_or};
ghost use Rattle.record.specs.Sizes.{row_size};
ghost use Rattle.record.specs.Table.{row};
ghost use Rattle.component.specs.Limits.{most_colours};
ghost use Rattle.component.specs.Row.{kind, port, map_start, map_of, mask, capacity, filling, fill_colour};

use crate::kinds::{Kind, Map, Port};
use record::ROW_SIZE;

/// The open table of a fabric: its rows, one after the other.
// Bytes and a count: who takes a table asks only that its bytes reach so far, and a slice of just its rows would ask more. A row is named by its number, which a channel's end
// and a term hold too: a type for a row would ask for the same bound where it is made.
#[derive(Clone, Copy, Debug)]
pub struct Table<'a> {
    pub rows: usize,
    pub bytes: &'a [u8],
    pub ghost long: { row_size * rows ≤ length bytes.now },
}

// Where a map begins in a row.
fn map_start(map: Map) -> usize
    ensures { (result ≡ map_start map) × (result ≤ 12) }
{
    match map {
        Map::First => 4,
        Map::Second => 12,
    }
}

impl<'a> Table<'a> {
    /// Row `k`.
    pub fn row(&self, k: usize) -> [u8; ROW_SIZE]
        requires { k < self.now.rows }
        ensures { result ≡ row self.now.bytes.now k }
    {
        record::row_at(self.bytes, k)
    }

    // Byte j of row k.
    fn field(&self, k: usize, j: usize) -> u8
        requires row { k < self.now.rows }
        requires byte { j < row_size }
        ensures { result ≡ get_or (row self.now.bytes.now k) j 0 }
    {
        self.bytes[ROW_SIZE * k + j]
    }

    // The same, and 0 past the row's end. The read hangs on no branch: which colour comes is close to random, and such a branch is mispredicted as often as not.
    fn field_or_0(&self, k: usize, j: usize) -> u8
        requires { k < self.now.rows }
        ensures { result ≡ get_or (row self.now.bytes.now k) j 0 }
    {
        let i = if j < ROW_SIZE { j } else { ROW_SIZE - 1 };
        let byte = self.field(k, i);
        if j < ROW_SIZE {
            return byte;
        }
        0
    }

    pub fn kind(&self, k: usize) -> Kind
        requires { k < self.now.rows }
        ensures { result ≡ kind (row self.now.bytes.now k) }
    {
        Kind::from(self.field(k, 0))
    }

    /// The channel at a port.
    pub fn port(&self, k: usize, at: Port) -> u8
        requires { k < self.now.rows }
        ensures { result ≡ port (row self.now.bytes.now k) at }
    {
        let j = match at {
            Port::A => 1,
            Port::B => 2,
            Port::C => 3,
        };
        self.field(k, j)
    }

    /// What a map makes of colour `d`: one read, without a test.
    pub fn map_of(&self, k: usize, map: Map, d: usize) -> u8
        requires row { k < self.now.rows }
        requires colour { d < most_colours }
        ensures { result ≡ map_of map (row self.now.bytes.now k) d }
    {
        self.field(k, map_start(map) + d)
    }

    /// The same of any number, for which a place past the row's end has to be left out.
    pub fn map_of_any(&self, k: usize, map: Map, d: usize) -> u8
        requires row { k < self.now.rows }
        requires byte { d < 256 }
        ensures { result ≡ map_of map (row self.now.bytes.now k) d }
    {
        self.field_or_0(k, map_start(map) + d)
    }

    pub fn mask(&self, k: usize) -> u8
        requires { k < self.now.rows }
        ensures { result ≡ mask (row self.now.bytes.now k) }
    {
        self.field(k, 20)
    }

    pub fn capacity(&self, k: usize) -> u8
        requires { k < self.now.rows }
        ensures { result ≡ capacity (row self.now.bytes.now k) }
    {
        self.field(k, 21)
    }

    pub fn filling(&self, k: usize) -> u8
        requires { k < self.now.rows }
        ensures { result ≡ filling (row self.now.bytes.now k) }
    {
        self.field(k, 22)
    }

    pub fn fill_colour(&self, k: usize) -> u8
        requires { k < self.now.rows }
        ensures { result ≡ fill_colour (row self.now.bytes.now k) }
    {
        self.field(k, 23)
    }
}
