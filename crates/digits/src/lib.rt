// Numbers as packed digits, most significant first, and byte sums.
#![tactic(auto)]

ghost use Rattle.std.specs.Prelude.{◌≡◌, ◌+◌, ◌%◌, ◌≤◌, length};
ghost use Rattle.digits.specs.Packed.{joined, bytes};
ghost use Rattle.digits.specs.Sum.{sum, negated};

/// The number that `n` bytes make from index `at` on, the first the highest.
// The place and the count stay beside the bytes, as in the definition: a part of the file would have to be led back to the file by each caller.
#[tactic(auto, using(crate::proofs::Words::word_fits, crate::proofs::Words::word_more))]
pub fn word(s: &[u8], at: usize, n: usize) -> u64
    requires { (at + n ≤ length s.now) × (n ≤ 7) }
    ensures { result ≡ joined (bytes n) s.now at }
{
    let mut number = 0;
    for byte in &s[at..at + n] {
        number = number * 256 + u64::from(*byte);
    }
    number
}

/// A byte sum, carried on over the bytes of a slice, wrapping at 256.
#[tactic(auto, using(crate::proofs::Sum::sum_more))]
pub fn add_bytes(carried: u8, s: &[u8]) -> u8
    ensures { result ≡ (carried + sum s.now) % 256 }
{
    let mut total = carried;
    for byte in s {
        total = total.wrapping_add(*byte);
    }
    total
}

/// The sum of all bytes, wrapping at 256.
pub fn byte_sum(s: &[u8]) -> u8
    ensures { result ≡ sum s.now % 256 }
{
    add_bytes(0, s)
}

/// The byte that brings a byte sum to 0, wrapping at 256.
pub fn negate(s: u8) -> u8
    ensures { result ≡ negated s }
{
    s.wrapping_neg()
}
