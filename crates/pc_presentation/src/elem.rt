//! Elements: exponents of the generators, and a row over the tails.

ghost use Rattle.std.specs.Prelude.{◌≡◌, ◌≤◌, ◌<◌, ◌+◌, ◌-◌, ◌%◌, get_or, length, replicate, slice_set, IfOk};
ghost use Rattle.pq_base.specs.Limits.{max_rank};
ghost use Rattle.pq_base.specs.Prime.{prime_value};
ghost use Rattle.fp_rows.specs.Rows.{IsRow, add_scaled};
ghost use Rattle.fp_rows.specs.Row.{IsColumn};
ghost use Rattle.pc_presentation.specs.Pcp.{unit_row};
ghost use Rattle.pc_presentation.specs.Collection.{add_row};
ghost use Rattle.pc_presentation.specs.Commuting.{AreBetween, cleared_between};
ghost use Rattle.pc_presentation.specs.Tailed.{Element, IsElement, one_of, with_state};

use crate::pcp::Pcp;
use arrayvec::ArrayVec;
use fp_rows::Row;
use pq_base::limits::RANK;
use pq_base::{NoMemory, Prime};
use std::alloc::Global;
use std::marker::Model;

/// The normal word of an element of a presentation: an exponent for each generator, and a row over the tails. Only `one`
/// takes memory.
#[derive(Debug, Drop)]
pub struct Elem {
    exponents: ArrayVec<u8, RANK>,
    tails: Row,
}

impl Model for Elem {
    ghost use Rattle.pc_presentation.specs.Tailed.{Element};

    ghost Value = { Element };

    ghost view = { λ e. record { prime = e.tails.prime; state = record { exponents = e.exponents.items; row = e.tails.entries } } };
}

impl Elem {
    /// The element of zeros.
    pub fn one(alloc: Global, pcp: &Pcp) -> Result<Elem, NoMemory>
        ensures one { IfOk result (λ e. e ≡ one_of pcp.now) }
        ensures element { IfOk result (λ e. IsElement pcp.now e) }
    {
        Ok(Elem {
            exponents: zero_exponents(pcp.rank()),
            tails: Row::zero(alloc, pcp.prime(), pcp.tails())?,
        })
    }

    /// The exponent of generator i, counted from 1.
    pub fn exponent(&self, i: u16) -> u8
        requires from_one { 1 ≤ i }
        requires in_range { i ≤ length self.now.state.exponents }
        ensures { result ≡ get_or self.now.state.exponents (i - 1) 0 }
    {
        self.exponents[i as usize - 1]
    }

    /// The exponents of all generators.
    pub fn exponents(&self) -> &[u8]
        ensures { result.now ≡ self.now.state.exponents }
    {
        self.exponents.as_slice()
    }

    /// The exponents after generator i and before generator z, both counted from 1, at their places, which count from 0. Those
    /// at other places are 0.
    pub fn exponents_between(&self, i: u16, z: u16) -> [u8; RANK]
        requires after { i < z }
        requires in_range { z ≤ length self.now.state.exponents + 1 }
        ensures { AreBetween i (z - 1) self.now.state.exponents result }
    {
        let mut part = [0; RANK];
        for k in i as usize..z as usize - 1 {
            part[k] = self.exponents[k];
        }
        part
    }

    /// The row over the tails.
    pub fn tail(&self) -> &Row
        ensures { result.now ≡ record { prime = self.now.prime; entries = self.now.state.row } }
    {
        &self.tails
    }

    /// Makes each exponent and each entry of the row 0.
    pub fn clear(&mut self)
        ensures { self.new ≡ with_state self.old (record {
          exponents = replicate (length self.old.state.exponents) 0;
          row = replicate (length self.old.state.row) 0;
        }) }
    {
        self.exponents.as_mut_slice().fill(0);
        self.tails.clear();
    }

    /// Makes the exponents after generator i and before generator z, both counted from 1, 0.
    pub fn clear_between(&mut self, i: u16, z: u16)
        requires from_one { 1 ≤ i }
        requires after { i < z }
        requires in_range { z ≤ length self.old.state.exponents + 1 }
        ensures { self.new ≡ with_state self.old (record {
          exponents = cleared_between (i - 1) (z - 1) self.old.state.exponents;
          row = self.old.state.row;
        }) }
    {
        self.exponents.as_mut_slice()[i as usize..z as usize - 1].fill(0);
    }

    /// Makes the element equal to the other, which has as many exponents and tails.
    pub fn copy_from(&mut self, other: &Elem)
        requires prime { other.now.prime ≡ self.old.prime }
        requires rank { length other.now.state.exponents ≡ length self.old.state.exponents }
        requires width { length other.now.state.row ≡ length self.old.state.row }
        ensures { self.new ≡ other.now }
    {
        self.exponents
            .as_mut_slice()
            .copy_from_slice(other.exponents.as_slice());
        self.tails.copy_from(&other.tails);
    }

    /// Replaces the exponent of generator i, counted from 1.
    pub fn set_exponent(&mut self, i: u16, value: u8)
        requires from_one { 1 ≤ i }
        requires in_range { i ≤ length self.old.state.exponents }
        requires residue { value < self.old.prime }
        ensures { self.new ≡ with_state self.old (record {
          exponents = slice_set self.old.state.exponents (i - 1) value;
          row = self.old.state.row;
        }) }
    {
        self.exponents[i as usize - 1] = value;
    }

    /// Adds 1 modulo the prime to the tail at a column, counted from 1.
    pub fn add_tail(&mut self, column: u16)
        requires { IsColumn self.old.state.row column }
        ensures { self.new ≡ with_state self.old (add_row self.old.prime (unit_row (length self.old.state.row) column) self.old.state) }
    {
        let next = next_residue(self.tails.prime(), self.tails.get(column));
        self.tails.set(column, next);
    }

    /// Adds a row to the tails.
    pub fn add_tails(&mut self, row: &Row)
        requires prime { row.now.prime ≡ self.old.prime }
        requires width { length row.now.entries ≡ length self.old.state.row }
        ensures { self.new ≡ with_state self.old (add_row self.old.prime row.now.entries self.old.state) }
    {
        let _residues = row.prime();
        self.tails.add_scaled(row, 1);
    }

    /// Adds `k` times a row to the tails.
    pub(crate) fn add_scaled_tails(&mut self, row: &Row, k: u8)
        requires prime { row.now.prime ≡ self.old.prime }
        requires width { length row.now.entries ≡ length self.old.state.row }
        requires factor { k < self.old.prime }
        ensures { self.new ≡ with_state self.old (record {
          exponents = self.old.state.exponents;
          row = add_scaled self.old.prime k self.old.state.row row.now.entries;
        }) }
    {
        self.tails.add_scaled(row, k);
    }
}

/// So many zeros.
#[tactic(auto, using(crate::proofs::quotients::ElementLaws::replicate_more))]
fn zero_exponents(rank: u16) -> ArrayVec<u8, RANK>
    requires { rank ≤ max_rank }
    ensures { result.items ≡ replicate rank 0 }
{
    let mut exponents = ArrayVec::new();
    for _ in 0..rank {
        exponents.push(0);
    }
    exponents
}

/// A residue and 1, without a division.
fn next_residue(prime: Prime, residue: u8) -> u8
    requires { residue < prime_value prime }
    ensures { result ≡ (residue + 1) % prime_value prime }
{
    let next = residue + 1;
    if next == prime.value() { 0 } else { next }
}
