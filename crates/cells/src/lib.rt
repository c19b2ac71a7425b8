// The state of a fabric and the choices of a step, without any signal: definitions, their laws, and a component's bytes.
#![tactic(auto)]

ghost use Rattle.std.specs.Prelude.{◌≡◌, ◌+◌, ◌*◌, ◌≤◌, length};
ghost use Rattle.cells.specs.Cells.{cell, cell_size};

/// The bytes of a component.
pub const CELL_SIZE: usize = 64;

/// The bytes of component `k`, 64 of the lent state: how long that is stays a clause.
pub fn cell(state: &[u8], k: usize) -> &[u8; CELL_SIZE]
    requires { cell_size * k + cell_size ≤ length state.now }
    ensures { result.now ≡ cell state.now k }
{
    &state.as_chunks().0[k]
}
