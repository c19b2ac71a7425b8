// A search that goes up: the lowest number that passes a test.
#![tactic(auto)]

ghost use Rattle.std.specs.Prelude.{◌≡◌, ℕ, Bool, ◌<◌};
ghost use Rattle.search.specs.First.{first};

/// The lowest number below `n` that passes the test; none where no number below `n` does.
///
/// `passes` is asked of 0, 1, .. in order, and of none after the first that passes.
// A loop, and not `(0..n).find(..)`: std's asks that the test may be asked of every number, this only of those below n.
pub fn first<F: Fn(usize) -> bool>(n: usize, passes: F) -> Option<usize>
    requires { (k : ℕ) → k < n → F.pre passes k }
    ensures { (test : ℕ → Bool) → ((k : ℕ) (b : Bool) → k < n → F.post passes k b → b ≡ test k) → result ≡ first test n }
{
    for k in 0..n {
        if passes(k) {
            return Some(k);
        }
    }
    None
}
