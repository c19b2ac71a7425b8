// Whether a row is right.

ghost use Rattle.std.specs.Prelude.{◌≡◌, ◌≤◌, length, cond, ◌&&◌, get_or, ltb};
ghost use Rattle.component.specs.Limits.{most_colours};
ghost use Rattle.component.specs.Row.{fits_below, map_ok, mask_ok, filling_ok, row_ok};

use record::ROW_SIZE;

// What a number is below: n where it is used, else 1. `used` is a flag: each field has its own test of the kind, made without a branch.
fn limit(used: bool, n: u8) -> u8
    ensures { result ≡ cond used n 1 }
{
    if used { n } else { 1 }
}

// A used number is below n, an unused one is 0.
fn fits_below(used: bool, x: u8, n: u8) -> bool
    ensures { result ≡ fits_below used x n }
{
    x < limit(used, n)
}

// The map entry x of colour d, where so many colours are mapped.
fn entry_ok(mapped: u8, d: u8, x: u8, n: u8) -> bool
    ensures { result ≡ fits_below (ltb d mapped) x n }
{
    fits_below(d < mapped, x, n)
}

// The entries of a map, colour 0 first.
#[tactic(auto, using(crate::proofs::Row::mapped_below), unfolding(crate::proofs::Row::entries_ok))]
fn map_ok(used: bool, n: u8, entries: &[u8]) -> bool
    requires { length entries.now ≡ most_colours }
    ensures { result ≡ map_ok used n (λ d. get_or entries.now d 0) }
{
    let mapped = if used { n } else { 0 };
    let mut good = true;
    for (d, &x) in entries.iter().enumerate() {
        good &= entry_ok(mapped, d as u8, x, n);
    }
    good
}

// A mask, with at least one colour where `some` says so: flags, as `used` above.
fn mask_ok(used: bool, some: bool, colours: u8, mask: u8) -> bool
    requires { colours ≤ most_colours }
    ensures { result ≡ mask_ok used some colours mask }
{
    let low = ((mask as u64) << colours) % 256;
    used & (low == 0) & (!some | (0 < mask)) | !used & (mask == 0)
}

fn filling_ok(used: bool, capacity: u8, filling: u8) -> bool
    ensures { result ≡ filling_ok used capacity filling }
{
    used & (1 <= capacity) & (capacity <= 63) & (filling <= capacity)
        | !used & (capacity == 0) & (filling == 0)
}

/// Whether a fabric of so many colours and channels may have this row.
// The kind stays a number: it may be no kind, and a field is used from a kind on, which is a comparison where an enum would list kinds.
#[tactic(auto, using(crate::proofs::Row::numbered_row))]
#[inline(always)]
pub fn row_ok(f: [u8; ROW_SIZE], colours: u8, channels: u8) -> bool
    requires { colours ≤ most_colours }
    ensures { result ≡ row_ok colours channels f }
{
    let kind = f[0];
    let first = (3 <= kind) & (kind <= 5);
    (kind <= 7)
        & (fits_below(true, f[1], channels)
            & fits_below(2 <= kind, f[2], channels)
            & fits_below(4 <= kind, f[3], channels))
        & map_ok(first, colours, &f[4..12])
        & map_ok(kind == 4, colours, &f[12..20])
        & mask_ok((kind == 0) | (kind == 6), kind == 0, colours, f[20])
        & filling_ok(kind == 2, f[21], f[22])
        & fits_below((kind == 2) & (0 < f[22]), f[23], colours)
}
