//! Exponents that are 0.

ghost use Rattle.std.specs.Prelude.{◌≡◌, ◌≤◌, ◌<◌, ℕ, get_or, length, IsTrue};

/// Whether the exponents from place `start` on and before place `end` are 0. Places count from 0.
pub(crate) fn are_zero(exponents: &[u8], start: u16, end: u16) -> bool
    requires { end ≤ length exponents.now }
    ensures { IsTrue result → (k : ℕ) → start ≤ k → k < end → get_or exponents.now k 0 ≡ 0 }
{
    for k in start..end {
        if exponents[k as usize] != 0 {
            return false;
        }
    }
    true
}
