//! Reduced bases.

ghost use Rattle.std.specs.Prelude.{◌≡◌, ◌≤◌, ◌<◌, ◌+◌, ◌-◌, ◌↔◌, [], ◌∷◌, ◌++◌, ℕ, max, IsTrue, IfOk, OnOk, OnErr, length, get_or};
ghost use Rattle.pq_base.specs.Prime.{prime_value};
ghost use Rattle.fp_echelon.specs.Span.{InSpan};
ghost use Rattle.fp_echelon.specs.Reduced.{pivots_of, IsPivot, at_pivot, IsPivotRow, IsRepresentative};
ghost use Rattle.fp_echelon.specs.Basis.{IsBasis, IsSum};
ghost use Rattle.fp_echelon.specs.Slots.{IsSlot, AreSlots, seen, all_seen};
ghost use Rattle.fp_echelon.specs.Inserted.{IfAdded, IfDependent};

use crate::elimination;
use crate::entry::Entry;
use crate::insertion::Insertion;
use fp_rows::Row;
use pq_base::{NoMemory, Prime};
use std::alloc::Global;
use std::marker::Model;

/// A reduced basis of the span of the rows that were added to it. Each of its rows has 1 at its pivot, which is its last
/// column that isn't 0, and the other rows have 0 there. Columns are counted from 1. Memory is taken by `new` and `reserve`
/// alone. A row is first reduced by itself in the scratch row: most rows are dependent, and need no coefficients.
#[derive(Drop)]
pub struct Basis {
    prime: Prime,
    width: u16,
    rank: u16,
    spare: u16,
    entries: Vec<Entry>,
    scratch: Row,
}

impl Model for Basis {
    ghost use Rattle.std.specs.Prelude.{◌≡◌, length};
    ghost use Rattle.pq_base.specs.Prime.{prime_value};
    ghost use Rattle.fp_echelon.specs.Basis.{Echelon};
    ghost use Rattle.fp_echelon.specs.Slots.{HoldsBasis, echelon_of};

    ghost Value = { Echelon };

    ghost view = { λ b. echelon_of (prime_value b.prime) b.width b.rank b.spare b.entries.items };

    ghost invariant = { λ b.
        HoldsBasis (prime_value b.prime) b.width b.rank b.spare b.entries.items
        × (b.scratch.prime ≡ prime_value b.prime)
        × (length b.scratch.entries ≡ b.width) };
}

impl Basis {
    /// The empty basis, with no room for rows yet.
    pub fn new(alloc: Global, prime: Prime, width: u16) -> Result<Basis, NoMemory>
        ensures basis { IfOk result (λ basis. IsBasis basis) }
        ensures empty { IfOk result (λ basis. basis ≡ record {
          prime = prime_value prime;
          width = width;
          added = [];
          rows = [];
          spare = 0;
        }) }
    {
        Ok(Basis {
            prime,
            width,
            rank: 0,
            spare: 0,
            entries: Vec::new(alloc),
            scratch: Row::zero(alloc, prime, width)?,
        })
    }

    /// Takes memory for as many rows to be added as `rows`, if there is not as much already.
    pub fn reserve(&mut self, rows: u16) -> Result<(), NoMemory>
        ensures ok { OnOk result (self.new ≡ record self.old { spare = max self.old.spare rows }) }
        ensures err { OnErr result (self.new ≡ self.old) }
    {
        if rows > self.spare {
            let room = self.rank as usize + rows as usize;
            elimination::make_room(&mut self.entries, self.prime, self.width, room)?;
            self.spare = rows;
        }
        Ok(())
    }

    /// Inserts a row, unless it is in the span of the rows that were added. A zero row costs no more than to look at it. Takes no
    /// memory.
    pub fn insert(&mut self, row: &Row) -> Insertion
        requires spare { 1 ≤ self.old.spare }
        requires prime { row.now.prime ≡ self.old.prime }
        requires width { length row.now.entries ≡ self.old.width }
        ensures basis { IsBasis self.new }
        ensures dependent { IfDependent result (InSpan self.old.prime self.old.width self.old.added row.now.entries) }
        ensures unchanged { IfDependent result (self.new ≡ self.old) }
        ensures independent { IfAdded result (λ c. ¬ InSpan self.old.prime self.old.width self.old.added row.now.entries) }
        ensures added { IfAdded result (λ c. self.new.added ≡ self.old.added ++ row.now.entries ∷ []) }
        ensures pivot { IfAdded result (λ c. pivots_of self.new.rows ≡ pivots_of self.old.rows ++ c ∷ []) }
        ensures spare { IfAdded result (λ c. self.new.spare + 1 ≡ self.old.spare) }
        ensures prime { self.new.prime ≡ self.old.prime }
        ensures width { self.new.width ≡ self.old.width }
    {
        let _basis = self.rank();
        if row.is_zero() || self.reduces_to_zero(row) {
            return Insertion::Dependent;
        }
        self.insert_reduced(row)
    }

    /// Whether a row reduces to the zero row. Coefficients are not made, so that dependent rows cost less.
    fn reduces_to_zero(&mut self, row: &Row) -> bool
        requires prime { row.now.prime ≡ self.old.prime }
        requires width { length row.now.entries ≡ self.old.width }
        ensures same { self.new ≡ self.old }
        ensures span { IsTrue result → InSpan self.old.prime self.old.width self.old.added row.now.entries }
    {
        let _width = row.width();
        self.scratch.copy_from(row);
        elimination::reduce(&self.entries[..self.rank as usize], &mut self.scratch);
        self.scratch.is_zero()
    }

    /// Inserts a row, unless it is in the span of the rows that were added, and makes its coefficients.
    fn insert_reduced(&mut self, row: &Row) -> Insertion
        requires spare { 1 ≤ self.old.spare }
        requires prime { row.now.prime ≡ self.old.prime }
        requires width { length row.now.entries ≡ self.old.width }
        ensures basis { IsBasis self.new }
        ensures dependent { IfDependent result (InSpan self.old.prime self.old.width self.old.added row.now.entries) }
        ensures unchanged { IfDependent result (self.new ≡ self.old) }
        ensures independent { IfAdded result (λ c. ¬ InSpan self.old.prime self.old.width self.old.added row.now.entries) }
        ensures added { IfAdded result (λ c. self.new.added ≡ self.old.added ++ row.now.entries ∷ []) }
        ensures pivot { IfAdded result (λ c. pivots_of self.new.rows ≡ pivots_of self.old.rows ++ c ∷ []) }
        ensures spare { IfAdded result (λ c. self.new.spare + 1 ≡ self.old.spare) }
        ensures prime { self.new.prime ≡ self.old.prime }
        ensures width { self.new.width ≡ self.old.width }
    {
        let rank = self.rank as usize;
        match elimination::insert(&mut self.entries, rank, row) {
            None => Insertion::Dependent,
            Some(column) => {
                self.rank += 1;
                self.spare -= 1;
                Insertion::Added(column)
            }
        }
    }

    /// Replaces a row by the one row that differs from it by a row of the span and is 0 at every pivot. Takes no memory.
    pub fn reduce(&self, row: &mut Row)
        requires prime { row.old.prime ≡ self.now.prime }
        requires width { length row.old.entries ≡ self.now.width }
        ensures representative { IsRepresentative self.now.prime self.now.width self.now.rows row.old.entries row.new.entries }
        ensures prime { row.new.prime ≡ row.old.prime }
        ensures basis { IsBasis self.now }
    {
        let _width = row.width();
        elimination::reduce(&self.entries[..self.rank as usize], row);
    }

    /// Whether a column is the pivot of a row of the basis.
    pub fn is_pivot(&self, column: u16) -> bool
        ensures pivot { IsTrue result ↔ IsPivot column self.now.rows }
        ensures basis { IsBasis self.now }
    {
        elimination::place_of(&self.entries[..self.rank as usize], column).is_some()
    }

    /// The number of rows of the basis, which is the number of rows that were added.
    pub fn rank(&self) -> u16
        ensures rank { result ≡ length self.now.rows }
        ensures added { result ≡ length self.now.added }
        ensures width { result ≤ self.now.width }
        ensures basis { IsBasis self.now }
    {
        self.rank
    }

    /// How many rows can be added without memory.
    pub fn spare(&self) -> u16
        ensures spare { result ≡ self.now.spare }
        ensures basis { IsBasis self.now }
    {
        self.spare
    }

    /// The prime that the basis was made with.
    pub fn prime(&self) -> Prime
        ensures prime { prime_value result ≡ self.now.prime }
        ensures basis { IsBasis self.now }
    {
        self.prime
    }

    /// The number of columns.
    pub fn width(&self) -> u16
        ensures width { result ≡ self.now.width }
        ensures basis { IsBasis self.now }
    {
        self.width
    }

    /// The row that was added as the `number`-th, counted from 1.
    pub fn added(&self, number: u16) -> &Row
        requires first { 1 ≤ number }
        requires last { number ≤ length self.now.added }
        ensures { result.now ≡ record { prime = self.now.prime; entries = get_or self.now.added (number - 1) [] } }
    {
        let place = number as usize - 1;
        self.entries[place].added()
    }

    /// The row of the basis with this pivot.
    pub fn row(&self, column: u16) -> &Row
        requires { IsPivot column self.now.rows }
        ensures row { result.now ≡ record { prime = self.now.prime; entries = (at_pivot column self.now.rows).row } }
        ensures pivot { IsPivotRow self.now.prime self.now.width (at_pivot column self.now.rows) }
        ensures basis { IsBasis self.now }
    {
        entry_of(&self.entries[..self.rank as usize], column).row()
    }

    /// The coefficients of the row with this pivot as a sum of the rows that were added, in the order of their insertion.
    pub fn coefficients(&self, column: u16) -> &[u8]
        requires { IsPivot column self.now.rows }
        ensures coefficients { result.now ≡ (at_pivot column self.now.rows).coefficients }
        ensures sum { IsSum self.now.prime self.now.width self.now.added (at_pivot column self.now.rows) }
        ensures basis { IsBasis self.now }
    {
        let rank = self.rank as usize;
        entry_of(&self.entries[..rank], column).coefficients(rank)
    }
}

fn entry_of(entries: &[Entry], column: u16) -> &Entry
    requires { IsPivot column (all_seen 0 entries.now) }
    ensures pivot { (n : ℕ) → at_pivot column (all_seen n entries.now) ≡ seen n result.now }
    ensures slot { (p width n : ℕ) → AreSlots p width n entries.now → IsSlot p width n result.now }
{
    match elimination::place_of(entries, column) {
        Some(place) => &entries[place],
        None => unreachable!(),
    }
}
