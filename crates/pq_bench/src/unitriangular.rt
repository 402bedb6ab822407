//! The groups of unitriangular matrices: a generator for each place above the diagonal.

ghost use Rattle.std.specs.Prelude.{◌≤◌, ◌<◌, IfOk, OnOk, length};
ghost use Rattle.pq_base.specs.Limits.{max_rank};

use crate::Failure;
use pc_presentation::{Pcp, PcpBuilder, PcpRefusal, Relation, Syllable};
use pq_base::limits::RANK;
use pq_base::{NoMemory, Prime};
use std::alloc::Global;

/// A place of a matrix. Rows and columns count from 0.
#[derive(Clone, Copy, Debug, PartialEq, Eq)]
struct Place {
    row: u16,
    column: u16,
}

/// The matrices of a size. There are none where the size is below 2, or gives too many generators.
pub fn unitriangular(alloc: Global, size: u16, prime: Prime) -> Result<Pcp, Failure> {
    if size < 2 {
        return Err(Failure::Words);
    }
    let places = places(alloc, size)?;
    Ok(presentation(alloc, prime, places.as_slice())?)
}

/// The places above the diagonal, ordered by diagonals.
fn places(alloc: Global, size: u16) -> Result<Vec<Place>, Failure>
    ensures { IfOk result (λ v. length v.items ≤ max_rank) }
{
    let mut places = Vec::new(alloc);
    for diagonal in 1..size {
        add_diagonal(&mut places, size, diagonal)?;
    }
    Ok(places)
}

fn add_diagonal(places: &mut Vec<Place>, size: u16, diagonal: u16) -> Result<(), Failure>
    requires diagonal { diagonal < size }
    requires limit { length places.old.items ≤ max_rank }
    ensures { OnOk result (length places.new.items ≤ max_rank) }
{
    for row in 0..size - diagonal {
        if places.len() >= RANK {
            return Err(Failure::Words);
        }
        let column = row + diagonal;
        places.push(Place { row, column }).map_err(NoMemory::from)?;
    }
    Ok(())
}

fn presentation(alloc: Global, prime: Prime, places: &[Place]) -> Result<Pcp, PcpRefusal>
    requires { length places.now ≤ max_rank }
{
    let weights = vec![in alloc; 1; places.len()].map_err(NoMemory::from)?;
    let mut builder = PcpBuilder::new(alloc, prime, weights.as_slice(), 0)?;
    for j in 1..=places.len() {
        add_commutators(&mut builder, prime, places, j)?;
    }
    Ok(builder.finish())
}

/// Gives the commutators of a generator with those before it.
fn add_commutators(
    builder: &mut PcpBuilder,
    prime: Prime,
    places: &[Place],
    j: usize,
) -> Result<(), PcpRefusal>
    requires from_one { 1 ≤ j }
    requires in_range { j ≤ length places.now }
    requires limit { length places.now ≤ max_rank }
{
    for i in 1..j {
        if let Some(s) = commutator(prime, places, places[j - 1], places[i - 1]) {
            builder.relation(Relation::Commutator(j as u16, i as u16), &[s], None)?;
        }
    }
    Ok(())
}

/// The commutator of the generators of two places, or none where it is empty.
fn commutator(prime: Prime, places: &[Place], later: Place, earlier: Place) -> Option<Syllable>
    requires { length places.now ≤ max_rank }
{
    let (row, column, exponent) = if later.column == earlier.row {
        (later.row, earlier.column, 1)
    } else if earlier.column == later.row {
        (earlier.row, later.column, prime.value() - 1)
    } else {
        return None;
    };
    Some(Syllable {
        generator: number_of(places, Place { row, column })?,
        exponent,
    })
}

/// The number of a place in a list, counted from 1.
fn number_of(places: &[Place], place: Place) -> Option<u16>
    requires { length places.now ≤ max_rank }
{
    let found = places.iter().position(|other| *other == place)?;
    Some(found as u16 + 1)
}
