// What memory for weights is made of.

ghost use Rattle.std.specs.Prelude.{◌≡◌, ℕ, ℤ, List, ◌++◌, refl, pos, replicate, ◌+◌, ◌*◌, ◌<◌, ◌≤◌, drop, length, set};
ghost use Rattle.judgement.specs.Entries.{entries_filled, bytes_filled};
ghost use Rattle.digits.specs.UpTo.{up_to};
ghost use Rattle.judgement.specs.Judged.{laid};
ghost use Rattle.judgement.specs.Memory.{bytes_of};
ghost use Rattle.judgement.specs.MemoryLaws.{bytes_more as memory_more_bytes, bytes_length, entries_is, bytes_is, entry_zeros, byte_zeros, one_long};
ghost use Rattle.std.proofs.Common.{rules};
ghost use Rattle.judgement.specs.EntryLaws.{some_entry, entries_none, entries_more, entries_long, entries_same, some_bytes, bytes_none, bytes_more, bytes_long, bytes_same};

/// Memory for weights: entries of 64 bits, or bytes, 8 for each entry, lowest first.
pub trait Entry: Copy {
    ghost WIDTH: { ℕ };

    /// So many of them hold one entry.
    const WIDTH: usize;

    // memory in which entry u is v
    ghost laid: { List Self → ℕ → ℤ → List Self };

    // memory in which the first n entries are g 0, g 1, ..
    ghost filled: { ℕ → (ℕ → ℤ) → List Self → List Self };

    // such memory of a list of entries
    ghost memory: { List ℤ → List Self };

    ghost ZERO: { Self };

    /// What an entry of 0 is made of.
    const ZERO: Self;

    /// Writes entry `u`.
    fn write(out: &mut [Self], u: usize, v: i64)
        requires { WIDTH * u + WIDTH ≤ length out.old }
        ensures { out.new ≡ laid out.old u v };

    ghost some: { 0 < WIDTH };

    ghost few: { WIDTH ≤ 8 };

    ghost none: { (g : ℕ → ℤ) (s : List Self) → filled 0 g s ≡ s };

    ghost more: { (g : ℕ → ℤ) (s : List Self) (u : ℕ) → WIDTH * u + WIDTH ≤ length s → laid (filled u g s) u (g u) ≡ filled (u + 1) g s };

    ghost long: { (g : ℕ → ℤ) (s : List Self) (u : ℕ) → WIDTH * u ≤ length s → length (filled u g s) ≡ length s };

    ghost same: { (g h : ℕ → ℤ) (s : List Self) (n : ℕ) → ((u : ℕ) → u < n → g u ≡ h u) → filled n g s ≡ filled n h s };

    ghost is: { (g : ℕ → ℤ) (s : List Self) (n : ℕ) → filled n g s ≡ memory (up_to n g) ++ drop (WIDTH * n) s };

    ghost joined: { (xs ys : List ℤ) → memory (xs ++ ys) ≡ memory xs ++ memory ys };

    ghost size: { (xs : List ℤ) → length (memory xs) ≡ WIDTH * length xs };

    ghost zeros: { (n : ℕ) → memory (up_to n (λ u. pos 0)) ≡ replicate (WIDTH * n) ZERO };

    // a copy never fails, and is what was copied
    ghost sure: { (x : Self) → Self.Clone.is_infallible x };

    ghost copied: { (x y : Self) → Self.Clone.is_clone x y → y ≡ x };
}

impl Entry for i64 {
    ghost WIDTH = { 1 };

    const WIDTH: usize = 1;

    ghost laid = { λ out u v. set out u v };

    ghost filled = { entries_filled };

    ghost memory = { λ entries. entries };

    ghost ZERO = { pos 0 };

    const ZERO: i64 = 0;

    fn write(out: &mut [i64], u: usize, v: i64) {
        out[u] = v;
    }

    ghost some = { some_entry };

    ghost few = { Prim.search rules };

    ghost none = { entries_none };

    ghost more = { entries_more };

    ghost long = { entries_long };

    ghost same = { entries_same };

    ghost is = { entries_is };

    ghost joined = { λ xs ys. refl };

    ghost size = { one_long };

    ghost zeros = { entry_zeros };

    ghost sure = { Prim.search rules };

    ghost copied = { λ x y is. is };
}

impl Entry for u8 {
    ghost WIDTH = { 8 };

    const WIDTH: usize = 8;

    ghost laid = { laid };

    ghost filled = { bytes_filled };

    ghost memory = { bytes_of };

    ghost ZERO = { 0 };

    const ZERO: u8 = 0;

    fn write(out: &mut [u8], u: usize, v: i64) {
        // 8 bytes an entry: the layout of lent memory
        out[8 * u..8 * u + 8].copy_from_slice(&v.to_le_bytes());
    }

    ghost some = { some_bytes };

    ghost few = { Prim.search rules };

    ghost none = { bytes_none };

    ghost more = { bytes_more };

    ghost long = { bytes_long };

    ghost same = { bytes_same };

    ghost is = { bytes_is };

    ghost joined = { memory_more_bytes };

    ghost size = { bytes_length };

    ghost zeros = { byte_zeros };

    ghost sure = { Prim.search rules };

    ghost copied = { λ x y is. is };
}
