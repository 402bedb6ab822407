//! Rows of residues.

ghost use Rattle.std.specs.Prelude.{◌≡◌, ◌<◌, ◌≤◌, ◌-◌, IfOk, IfSome, IfNone, IsTrue, ◌↔◌, length, slice_set};
ghost use Rattle.pq_base.specs.Prime.{prime_value};
ghost use Rattle.pq_base.specs.Elementary.{zeros};
ghost use Rattle.fp_rows.specs.Rows.{IsRow, add_scaled, scale_row};
ghost use Rattle.fp_rows.specs.Row.{at_column, IsColumn, IsZeroRow, IsLastNonzero};

use crate::kernel;
use pq_base::{NoMemory, Prime};
use std::alloc::Global;
use std::marker::Model;

/// A row of residues modulo a prime. Its columns are counted from 1. Only `zero` takes memory.
#[derive(Debug, Drop)]
pub struct Row {
    prime: Prime,
    entries: Vec<u8>,
}

impl Model for Row {
    ghost use Rattle.std.specs.Prelude.{◌≤◌, length};
    ghost use Rattle.pq_base.specs.Table.{AllBelow};
    ghost use Rattle.pq_base.specs.Prime.{prime_value};
    ghost use Rattle.fp_rows.specs.Row.{PrimeRow};

    ghost Value = { PrimeRow };

    ghost view = { λ r. record { prime = prime_value r.prime; entries = r.entries.items } };

    ghost invariant = { λ r. AllBelow (prime_value r.prime) r.entries.items × (length r.entries.items ≤ 65535) };
}

impl Row {
    /// The row of `width` zeros.
    pub fn zero(alloc: Global, prime: Prime, width: u16) -> Result<Row, NoMemory>
        ensures { IfOk result (λ row. row ≡ record { prime = prime_value prime; entries = zeros width }) }
    {
        Ok(Row {
            prime,
            entries: vec![in alloc; 0; width as usize]?,
        })
    }

    /// The prime that the row was made with.
    pub fn prime(&self) -> Prime
        ensures prime { prime_value result ≡ self.now.prime }
        ensures row { IsRow self.now.prime (length self.now.entries) self.now.entries }
    {
        self.prime
    }

    /// How many columns the row has.
    pub fn width(&self) -> u16
        ensures width { result ≡ length self.now.entries }
        ensures row { IsRow self.now.prime result self.now.entries }
    {
        self.entries.len() as u16
    }

    /// The entry at a column.
    pub fn get(&self, column: u16) -> u8
        requires { IsColumn self.now.entries column }
        ensures entry { result ≡ at_column self.now.entries column }
        ensures residue { result < self.now.prime }
    {
        let place = column as usize - 1;
        self.entries[place]
    }

    /// Replaces the entry at a column.
    pub fn set(&mut self, column: u16, value: u8)
        requires column { IsColumn self.old.entries column }
        requires residue { value < self.old.prime }
        ensures { self.new ≡ record self.old { entries = slice_set self.old.entries (column - 1) value } }
    {
        self.entries[column as usize - 1] = value;
    }

    /// Adds `k` times the other row.
    pub fn add_scaled(&mut self, other: &Row, k: u8)
        requires prime { other.now.prime ≡ self.old.prime }
        requires width { length other.now.entries ≡ length self.old.entries }
        requires factor { k < self.old.prime }
        ensures { self.new ≡ record self.old { entries = add_scaled self.old.prime k self.old.entries other.now.entries } }
    {
        kernel::add_scaled(self.prime, &mut self.entries, &other.entries, k);
    }

    /// Replaces the row by `k` times it.
    pub fn scale(&mut self, k: u8)
        requires { k < self.old.prime }
        ensures { self.new ≡ record self.old { entries = scale_row self.old.prime k self.old.entries } }
    {
        kernel::scale(self.prime, &mut self.entries, k);
    }

    /// Makes each entry 0.
    pub fn clear(&mut self)
        ensures { self.new ≡ record self.old { entries = zeros (length self.old.entries) } }
    {
        self.entries.as_mut_slice().fill(0);
    }

    /// Makes the row equal to the other.
    pub fn copy_from(&mut self, other: &Row)
        requires prime { other.now.prime ≡ self.old.prime }
        requires width { length other.now.entries ≡ length self.old.entries }
        ensures { self.new ≡ other.now }
    {
        self.entries.as_mut_slice().copy_from_slice(&other.entries);
    }

    /// The last column whose entry isn't 0, or `None` where the row is zero.
    pub fn last_nonzero(&self) -> Option<u16>
        ensures some { IfSome result (λ column. IsLastNonzero self.now.entries column) }
        ensures none { IfNone result (IsZeroRow self.now.entries) }
    {
        for column in (1..=self.width()).rev() {
            if self.get(column) != 0 {
                return Some(column);
            }
        }
        None
    }

    /// Whether each entry is 0.
    pub fn is_zero(&self) -> bool
        ensures { IsTrue result ↔ IsZeroRow self.now.entries }
    {
        kernel::is_zero(&self.entries)
    }
}
