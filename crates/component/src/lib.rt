// The row of a component: its fields by name, and whether they are right.
#![tactic(auto)]

ghost use Rattle.std.specs.Prelude.{◌≡◌};
ghost use Rattle.component.specs.Row.{has_colour};

pub mod kinds;
pub mod rows;
pub mod table;

pub use kinds::{Kind, Map, Port};
use record::ROW_SIZE;
pub use rows::row_ok;
pub use table::Table;

/// The most colours of a fabric.
pub const MOST_COLOURS: usize = 8;

/// The most components.
pub const MOST_COMPONENTS: usize = 128;

/// The most channels.
pub const MOST_CHANNELS: usize = 255;

/// The bytes of the largest open table.
pub const TABLE_SIZE: usize = ROW_SIZE * MOST_COMPONENTS;

/// The most flows, one a channel and colour.
pub const MOST_FLOWS: usize = MOST_COLOURS * MOST_CHANNELS;

/// The most weights, one a component and colour.
pub const MOST_ENTRIES: usize = MOST_COLOURS * MOST_COMPONENTS;

/// Whether a mask byte has colour `d`; colour 0 is the highest bit.
pub fn has_colour(mask: usize, d: usize) -> bool
    ensures { result ≡ has_colour mask d }
{
    if d < 8 {
        return (mask >> (7 - d)) % 2 == 1;
    }
    mask % 2 == 1
}
