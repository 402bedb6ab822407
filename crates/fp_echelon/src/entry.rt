//! One row of a basis in memory, together with the inserted row that brought it.

ghost use Rattle.std.specs.Prelude.{◌≡◌, ◌≤◌, ◌<◌, ◌+◌, IfOk, OnOk, OnErr, length, suc, take, drop, ◌++◌, ◌∷◌};
ghost use Rattle.pq_base.specs.Table.{AllBelow};
ghost use Rattle.pq_base.specs.Prime.{prime_value};
ghost use Rattle.pq_base.specs.Elementary.{zeros};
ghost use Rattle.fp_rows.specs.Row.{IsColumn};
ghost use Rattle.fp_echelon.specs.Reduction.{cleared};
ghost use Rattle.fp_echelon.specs.Slots.{IsSlot, HasPivot, add_front, scale_front, plus_slot, cleared_slot, scaled_slot, placed_slot};
ghost use Rattle.fp_echelon.specs.Slots.{started_slot, grown_slot, new_slot};

use fp_rows::{Row, kernel};
use pq_base::{NoMemory, Prime};
use std::alloc::Global;
use std::marker::Model;

/// A row of a basis, its pivot, the inserted row that brought it, and its coefficients over the inserted rows, of which
/// only the first count. Contracts see it as a slot.
#[derive(Drop)]
pub struct Entry {
    pivot: u16,
    added: Row,
    row: Row,
    coefficients: Vec<u8>,
}

impl Model for Entry {
    ghost use Rattle.std.specs.Prelude.{◌≡◌};
    ghost use Rattle.pq_base.specs.Table.{AllBelow};
    ghost use Rattle.fp_echelon.specs.Slots.{Slot};

    ghost Value = { Slot };

    ghost view = { λ e. record {
      prime = e.row.prime;
      pivot = e.pivot;
      added = e.added.entries;
      row = e.row.entries;
      coefficients = e.coefficients.items;
    } };

    ghost invariant = { λ e. (e.added.prime ≡ e.row.prime) × AllBelow e.row.prime e.coefficients.items };
}

impl Entry {
    /// An entry of zeros, with room for so many coefficients.
    pub fn new(alloc: Global, prime: Prime, width: u16, room: usize) -> Result<Entry, NoMemory>
        ensures { IfOk result (λ entry. entry ≡ new_slot (prime_value prime) width room) }
    {
        Ok(Entry {
            pivot: 0,
            added: Row::zero(alloc, prime, width)?,
            row: Row::zero(alloc, prime, width)?,
            coefficients: vec![in alloc; 0; room]?,
        })
    }

    /// Makes room for so many coefficients.
    pub fn make_room(&mut self, room: usize) -> Result<(), NoMemory>
        ensures ok { OnOk result (self.new ≡ grown_slot room self.old) }
        ensures err { OnErr result (self.new ≡ self.old) }
    {
        let _prime = self.row.prime();
        let room = room.max(self.coefficients.len());
        self.coefficients.resize(room, 0)?;
        Ok(())
    }

    /// Makes the coefficient at a place 0, where the first is at place 0.
    pub fn clear_place(&mut self, place: usize)
        requires { place < length self.old.coefficients }
        ensures { self.new ≡ placed_slot place self.old }
    {
        self.coefficients[place] = 0;
    }

    /// Holds a row to insert, of which the coefficient is at this place.
    pub fn start(&mut self, row: &Row, place: usize)
        requires prime { 2 ≤ row.now.prime }
        requires slot { IsSlot row.now.prime (length row.now.entries) (place + 1) self.old }
        ensures { self.new ≡ started_slot place row.now.entries self.old }
    {
        self.pivot = 0;
        self.added.copy_from(row);
        self.row.copy_from(row);
        make_unit(&mut self.coefficients, place);
    }

    /// Adds `k` times another entry, with the first `count` coefficients.
    // Never inlined, so that the test in `clear_by`, of which most tell that there is nothing to add, is small enough for a loop.
    #[inline(never)]
    pub fn add_scaled(&mut self, other: &Entry, count: usize, k: u8)
        requires slot { IsSlot self.old.prime (length self.old.row) count self.old }
        requires other { IsSlot self.old.prime (length self.old.row) count other.now }
        requires factor { k < self.old.prime }
        ensures { self.new ≡ plus_slot count k other.now self.old }
    {
        self.row.add_scaled(&other.row, k);
        add_to_front(
            self.row.prime(),
            &mut self.coefficients,
            &other.coefficients,
            count,
            k,
        );
    }

    /// Multiplies the entry by `k`, with the first `count` coefficients, and puts its pivot at a column.
    pub fn scale(&mut self, column: u16, count: usize, k: u8)
        requires slot { IsSlot self.old.prime (length self.old.row) count self.old }
        requires factor { k < self.old.prime }
        ensures { self.new ≡ scaled_slot count column k self.old }
    {
        self.pivot = column;
        self.row.scale(k);
        multiply_front(self.row.prime(), &mut self.coefficients, count, k);
    }

    /// Makes the column of the other entry's pivot 0 by means of that entry.
    #[inline(always)]
    pub fn clear_by(&mut self, other: &Entry, count: usize)
        requires slot { IsSlot self.old.prime (length self.old.row) count self.old }
        requires other { IsSlot self.old.prime (length self.old.row) count other.now }
        requires pivot { HasPivot (length self.old.row) other.now }
        ensures { self.new ≡ cleared_slot count other.now self.old }
    {
        let k = self.row.get(other.pivot);
        if k != 0 {
            let p = self.row.prime().value();
            self.add_scaled(other, count, p - k);
        }
    }

    /// Makes the column of the pivot 0 in a row by means of this entry.
    pub fn clear_row(&self, row: &mut Row)
        requires slot { IsSlot row.old.prime (length row.old.entries) 0 self.now }
        requires pivot { HasPivot (length row.old.entries) self.now }
        ensures { row.new ≡ record row.old { entries = cleared row.old.prime self.now.pivot self.now.row row.old.entries } }
    {
        let p = row.prime().value();
        let k = row.get(self.pivot);
        if k != 0 {
            row.add_scaled(&self.row, p - k);
        }
    }

    /// The column of the pivot.
    pub fn pivot(&self) -> u16
        ensures { result ≡ self.now.pivot }
    {
        self.pivot
    }

    /// The inserted row.
    pub fn added(&self) -> &Row
        ensures { result.now ≡ record { prime = self.now.prime; entries = self.now.added } }
    {
        &self.added
    }

    /// The row of the basis.
    pub fn row(&self) -> &Row
        ensures { result.now ≡ record { prime = self.now.prime; entries = self.now.row } }
    {
        &self.row
    }

    /// The first coefficients of the row of the basis.
    pub fn coefficients(&self, count: usize) -> &[u8]
        requires { count ≤ length self.now.coefficients }
        ensures { result.now ≡ take count self.now.coefficients }
    {
        &self.coefficients[..count]
    }
}

fn make_unit(coefficients: &mut [u8], place: usize)
    requires { place < length coefficients.old }
    ensures { coefficients.new ≡ zeros place ++ 1 ∷ drop (suc place) coefficients.old }
{
    coefficients[..place].fill(0);
    coefficients[place] = 1;
}

fn add_to_front(prime: Prime, xs: &mut [u8], ys: &[u8], count: usize, k: u8)
    requires left_count { count ≤ length xs.old }
    requires right_count { count ≤ length ys.now }
    requires left { AllBelow (prime_value prime) xs.old }
    requires right { AllBelow (prime_value prime) ys.now }
    requires factor { k < prime_value prime }
    ensures { xs.new ≡ add_front count (prime_value prime) k xs.old ys.now }
{
    kernel::add_scaled(prime, &mut xs[..count], &ys[..count], k);
}

fn multiply_front(prime: Prime, xs: &mut [u8], count: usize, k: u8)
    requires count { count ≤ length xs.old }
    requires entries { AllBelow (prime_value prime) xs.old }
    requires factor { k < prime_value prime }
    ensures { xs.new ≡ scale_front count (prime_value prime) k xs.old }
{
    kernel::scale(prime, &mut xs[..count], k);
}
