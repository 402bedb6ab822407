//! Numbers that look random and are the same at each run.

ghost use Rattle.std.specs.Prelude.{◌≡◌, ◌<◌, length};
ghost use Rattle.pq_base.specs.Prime.{prime_value};

use fp_rows::Row;
use pq_base::Prime;

/// The next number of a linear congruential generator modulo 2^31.
pub fn next(seed: u32) -> u32 {
    seed.wrapping_mul(1_103_515_245).wrapping_add(12_345) & 0x7fff_ffff
}

/// A residue that a number gives.
pub fn residue(seed: u32, prime: Prime) -> u8
    ensures { result < prime_value prime }
{
    let p = u32::from(prime.value());
    ((seed >> 16) % p) as u8
}

/// Puts a residue at each column, and gives the number behind the last.
pub fn refill(row: &mut Row, first: u32) -> u32
    ensures prime { row.new.prime ≡ row.old.prime }
    ensures width { length row.new.entries ≡ length row.old.entries }
{
    let prime = row.prime();
    let mut seed = first;
    for column in 1..=row.width() {
        seed = next(seed);
        row.set(column, residue(seed, prime));
    }
    seed
}
