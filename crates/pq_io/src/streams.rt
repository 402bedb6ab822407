//! What reads and what writes, as the engine sees it.

ghost use Rattle.std.specs.Prelude.{◌≡◌, ◌<◌, ◌≤◌, ℕ, List, Option, length, take, IfOk, OnOk, OnErr, IsNone};
ghost use Rattle.std.specs.Io.KnownBytes.{Consumes, IsAtEnd};
ghost use Rattle.pq_io.specs.Faults.{Rose};
ghost use Rattle.pq_io.specs.Writing.{Gains};

use thiserror::Error;

/// A read or a write failed.
#[derive(Clone, Copy, Debug, PartialEq, Eq, Error)]
#[error("a read or a write failed")]
pub struct Failed;

/// Where bytes come from.
pub trait Source {
    /// The bytes that are left, where the source tells them. A source that tells goes on telling.
    ghost left: { Self → Option (List ℕ) };

    /// How often it has failed, up to some greatest count.
    ghost faults: { Self → ℕ };

    /// Puts the next bytes at the front of the buffer, and says how many; 0 into a buffer that isn't empty is the end.
    fn read(&mut self, buf: &mut [u8]) -> Result<usize, Failed>
        ensures count { faults self.old ≤ faults self.new }
        ensures cause { OnErr result (Rose (faults self.old) (faults self.new)) }
        ensures steady { OnOk result (faults self.new ≡ faults self.old) }
        ensures unchanged { OnErr result (left self.new ≡ left self.old) }

        ensures bound { IfOk result (λ n. n ≤ length buf.new) }
        ensures bytes { IfOk result (λ n. Consumes (left self.old) (left self.new) (take n buf.new)) }
        ensures end { IfOk result (λ n. n ≡ 0 → 0 < length buf.new → IsAtEnd (left self.old)) };
}

/// Where bytes go.
pub trait Sink {
    /// The bytes that it has taken, where the sink tells them.
    ghost taken: { Self → Option (List ℕ) };

    /// How often it has failed, up to some greatest count.
    ghost faults: { Self → ℕ };

    /// Takes a first part of the piece, and says how many bytes that is: at least one, where there is one.
    fn write(&mut self, piece: &[u8]) -> Result<usize, Failed>
        ensures count { faults self.old ≤ faults self.new }
        ensures cause { OnErr result (Rose (faults self.old) (faults self.new)) }
        ensures steady { OnOk result (faults self.new ≡ faults self.old) }
        ensures unchanged { OnErr result (taken self.new ≡ taken self.old) }

        ensures bound { IfOk result (λ n. n ≤ length piece.now) }
        ensures progress { IfOk result (λ n. 0 < length piece.now → 0 < n) }
        ensures bytes { IfOk result (λ n. Gains (taken self.old) (taken self.new) (take n piece.now)) }

        // A sink that has stopped telling never tells again.
        ensures silent { IsNone (taken self.old) → IsNone (taken self.new) };
}
