//! Rows of residues, and bases of them. `row P / ENTRIES` is a row; then `set COLUMN VALUE`, `add K / ENTRIES` for K times
//! another row, `scale K`, `clear` and `copy ENTRIES` change it: the answer is the row, and its last column that isn't 0.
//! `basis P WIDTH` is an empty basis, `reserve N` takes memory for N rows, `insert ENTRIES` inserts a row, `reduce ENTRIES`
//! reduces one, and `added N` and `pivot COLUMN` look into the basis.

ghost use Rattle.std.specs.Prelude.{◌≡◌, IfOk, OnOk, length};
ghost use Rattle.pq_base.specs.Prime.{prime_value};

use anyhow::{Result, bail};
use case_lists::text::{halves, numbers, show_numbers};
use case_lists::{Cases, prime_of, show_row};
use fp_echelon::{Basis, Insertion};
use fp_rows::Row;
use pq_base::Prime;
use std::alloc::Global;

#[derive(Drop)]
pub(crate) struct RowCases {
    alloc: Global,
    row: Option<Row>,
    basis: Option<Basis>,
}

impl Cases for RowCases {
    fn new(alloc: Global) -> RowCases {
        RowCases {
            alloc,
            row: None,
            basis: None,
        }
    }

    fn act(&mut self, verb: &str, rest: &str, out: &mut String) -> Result<()> {
        match verb {
            "row" => {
                let (prime, entries) = halves(rest, "/")?;
                let row = row_of_text(self.alloc, prime_of(prime)?, entries)?;
                show_whole_row(out, &row)?;
                self.row = Some(row);
            }
            "basis" => {
                let (prime, width) = halves(rest, " ")?;
                self.basis = Some(Basis::new(self.alloc, prime_of(prime)?, width.parse::<u16>()?)?);
            }
            "set" | "add" | "scale" | "clear" | "copy" => self.change(verb, rest, out)?,
            _ => self.ask(verb, rest, out)?,
        }
        Ok(())
    }
}

impl RowCases {
    fn change(&mut self, verb: &str, rest: &str, out: &mut String) -> Result<()> {
        let Some(row) = &mut self.row else {
            bail!("no row");
        };
        match verb {
            "set" => {
                let (column, value) = halves(rest, " ")?;
                set(row, column.parse::<u16>()?, value.parse::<u8>()?)?;
            }
            "add" => {
                let (k, entries) = halves(rest, "/")?;
                add(
                    row,
                    k.parse::<u8>()?,
                    &numbers::<u8>(self.alloc, entries)?,
                    self.alloc,
                )?;
            }
            "scale" => scale(row, rest.parse::<u8>()?)?,
            "copy" => copy(row, &numbers::<u8>(self.alloc, rest)?, self.alloc)?,
            _ => row.clear(),
        }
        show_whole_row(out, row)
    }

    fn ask(&mut self, verb: &str, rest: &str, out: &mut String) -> Result<()> {
        let Some(basis) = &mut self.basis else {
            bail!("no basis");
        };
        let values = numbers::<u8>(self.alloc, rest)?;
        match (verb, values.as_slice()) {
            ("reserve", [rows]) => {
                basis.reserve(u16::from(*rows))?;
                let spare = basis.spare();
                writeln!(out, "    spare {spare}")?;
                Ok(())
            }
            ("insert", entries) => show_insertion(self.alloc, basis, entries, out),
            ("reduce", entries) => show_reduced(self.alloc, basis, entries, out),
            ("added", [number]) => show_added(basis, u16::from(*number), out),
            ("pivot", [column]) => show_pivot(basis, u16::from(*column), out),
            _ => bail!("no such verb"),
        }
    }
}

/// A row with these entries.
fn row_of(alloc: Global, prime: Prime, width: u16, entries: &[u8]) -> Result<Row>
    ensures prime { IfOk result (λ row. row.prime ≡ prime_value prime) }
    ensures width { IfOk result (λ row. length row.entries ≡ width) }
{
    let mut row = Row::zero(alloc, prime, width)?;
    if entries.len() != width as usize {
        bail!("another width");
    }
    let mut column = 0;
    for entry in entries {
        column = next_column(column);
        set(&mut row, column, *entry)?;
    }
    Ok(row)
}

fn next_column(column: u16) -> u16 {
    column.saturating_add(1)
}

fn row_of_text(alloc: Global, prime: Prime, text: &str) -> Result<Row> {
    let entries = numbers::<u8>(alloc, text)?;
    if entries.len() > 1000 {
        bail!("too wide");
    }
    row_of(alloc, prime, entries.len() as u16, &entries)
}

/// Sets an entry, where there is such a column and the value is a residue.
fn set(row: &mut Row, column: u16, value: u8) -> Result<()>
    ensures prime { row.new.prime ≡ row.old.prime }
    ensures width { length row.new.entries ≡ length row.old.entries }
{
    if column < 1 || row.width() < column || row.prime().value() <= value {
        bail!("no such entry");
    }
    row.set(column, value);
    Ok(())
}

fn add(row: &mut Row, k: u8, entries: &[u8], alloc: Global) -> Result<()> {
    let other = row_of(alloc, row.prime(), row.width(), entries)?;
    if row.prime().value() <= k {
        bail!("no residue");
    }
    row.add_scaled(&other, k);
    Ok(())
}

fn scale(row: &mut Row, k: u8) -> Result<()> {
    if row.prime().value() <= k {
        bail!("no residue");
    }
    row.scale(k);
    Ok(())
}

fn copy(row: &mut Row, entries: &[u8], alloc: Global) -> Result<()> {
    let other = row_of(alloc, row.prime(), row.width(), entries)?;
    row.copy_from(&other);
    Ok(())
}

/// Writes a row, and its last column that isn't 0.
fn show_whole_row(out: &mut String, row: &Row) -> Result<()> {
    out.push_str("   ")?;
    show_row(out, row)?;
    match row.last_nonzero() {
        Some(column) => write!(out, ", last {column}")?,
        None => out.push_str(", without last")?,
    }
    if row.is_zero() {
        out.push_str(", zero")?;
    }
    out.push('\n')?;
    Ok(())
}

/// Inserts a row with these entries, where there is room.
pub(crate) fn insert_row(alloc: Global, basis: &mut Basis, entries: &[u8]) -> Result<Insertion>
    ensures prime { OnOk result (basis.new.prime ≡ basis.old.prime) }
    ensures width { OnOk result (basis.new.width ≡ basis.old.width) }
{
    let row = row_of(alloc, basis.prime(), basis.width(), entries)?;
    if basis.spare() == 0 {
        bail!("no room");
    }
    Ok(basis.insert(&row))
}

fn show_insertion(
    alloc: Global,
    basis: &mut Basis,
    entries: &[u8],
    out: &mut String,
) -> Result<()> {
    match insert_row(alloc, basis, entries)? {
        Insertion::Added(column) => write!(out, "    added at {column}")?,
        Insertion::Dependent => write!(out, "    dependent")?,
    }
    let rank = basis.rank();
    let spare = basis.spare();
    writeln!(out, ", rank {rank}, spare {spare}")?;
    Ok(())
}

fn show_reduced(alloc: Global, basis: &Basis, entries: &[u8], out: &mut String) -> Result<()> {
    let mut row = row_of(alloc, basis.prime(), basis.width(), entries)?;
    basis.reduce(&mut row);
    show_whole_row(out, &row)
}

fn show_added(basis: &Basis, number: u16, out: &mut String) -> Result<()> {
    if number < 1 || basis.rank() < number {
        bail!("no such row");
    }
    show_whole_row(out, basis.added(number))
}

/// Writes the row with this pivot, and its coefficients.
fn show_pivot(basis: &Basis, column: u16, out: &mut String) -> Result<()> {
    if !basis.is_pivot(column) {
        writeln!(out, "    no pivot")?;
        return Ok(());
    }
    show_whole_row(out, basis.row(column))?;
    out.push_str("   ")?;
    show_numbers(out, basis.coefficients(column))?;
    out.push('\n')?;
    Ok(())
}
