//! Numbers in decimal digits, without sign and without a leading zero.

ghost use Rattle.std.specs.Prelude.{◌≡◌, ◌^◌, ◌<◌, ◌↔◌, ℕ, IfSome, IfNone, IsTrue, decimal};
ghost use Rattle.pq_run.specs.Number.{BeginsCanonically};

/// The number that a text spells in its one canonical way, where there is one below 2^32.
pub(crate) fn canonical_number(text: &str) -> Option<u32>
    ensures some { IfSome result (λ n. text.now ≡ decimal n) }
    ensures only { IfSome result (λ n. (m : ℕ) → m < 2 ^ 32 → text.now ≡ decimal m → m ≡ n) }
    ensures none { IfNone result ((n : ℕ) → n < 2 ^ 32 → text.now ≡ decimal n → ⊥) }
{
    if !begins_canonically(text.as_bytes()) {
        return None;
    }
    match text.parse::<u32>() {
        Ok(n) => Some(n),
        Err(_) => None,
    }
}

/// Whether a text begins with no sign, and with 0 only where it is 0 alone.
fn begins_canonically(text: &[u8]) -> bool
    ensures { IsTrue result ↔ BeginsCanonically text.now }
{
    match text {
        [] => true,
        [first, rest @ ..] => *first != b'+' && (*first != b'0' || rest.is_empty()),
    }
}
