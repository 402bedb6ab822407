//! Insertions and reductions over the entries of a basis: those in use, then those for rows to come.

ghost use Rattle.std.specs.Prelude.{◌≡◌, ◌≢◌, ◌≤◌, ◌<◌, ◌++◌, ℕ, suc, IfSome, IfNone, OnOk, OnErr, length, take, map, replicate, get_or};
ghost use Rattle.pq_base.specs.Prime.{prime_value};
ghost use Rattle.fp_rows.specs.Rows.{IsRow};
ghost use Rattle.fp_rows.specs.Row.{IsColumn};
ghost use Rattle.fp_echelon.specs.Reduction.{reduce_by};
ghost use Rattle.fp_echelon.specs.Slots.{IsSlot, AreSlots, HasPivot, HavePivots, HaveRoom, cleared_slot, cleared_by_each, placed_slot};
ghost use Rattle.fp_echelon.specs.Slots.{reduced_slots, joined_slots, no_slot, all_seen, pivot_at, IsPlaceOf, IsJoined, IsLeft, grown_slot};
ghost use Rattle.fp_echelon.specs.Slots.{new_slot, grown_front, IsGrown, AreGrown};

use crate::entry::Entry;
use fp_rows::Row;
use pq_base::{NoMemory, Prime};

/// Inserts a row after the first `rank` entries, which hold a reduced basis: the column of its pivot, or `None` where the
/// row is in the span.
pub fn insert(entries: &mut [Entry], rank: usize, row: &Row) -> Option<u16>
    requires rank { rank < length entries.old }
    requires slots { AreSlots row.now.prime (length row.now.entries) (suc rank) entries.old }
    requires pivots { HavePivots (length row.now.entries) (take rank entries.old) }
    ensures some { IfSome result (λ c. IsJoined row.now.prime rank c row.now.entries entries.old entries.new) }
    ensures none { IfNone result (IsLeft rank row.now.entries entries.old entries.new) }
    ensures row { IsRow row.now.prime (length row.now.entries) row.now.entries }
{
    let prime = row.prime();
    reduce_new(entries, rank, row);
    let reduced = entries[rank].row();
    let column = reduced.last_nonzero()?;
    let k = prime.inv(reduced.get(column));
    join_new(entries, rank, column, k);
    Some(column)
}

// Reduces a row by the first `rank` entries, in the entry after them.
fn reduce_new(entries: &mut [Entry], rank: usize, row: &Row)
    requires prime { 2 ≤ row.now.prime }
    requires row { IsRow row.now.prime (length row.now.entries) row.now.entries }
    requires rank { rank < length entries.old }
    requires slots { AreSlots row.now.prime (length row.now.entries) (suc rank) entries.old }
    requires pivots { HavePivots (length row.now.entries) (take rank entries.old) }
    ensures { entries.new ≡ reduced_slots rank row.now.entries entries.old }
{
    let (older, later) = entries.split_at_mut(rank);
    let entry = &mut later[0];
    clear_places(older, rank);
    entry.start(row, rank);
    clear_by_all(entry, older, rank + 1);
}

// Multiplies the entry after the first `rank` by `k`, puts its pivot at a column, and makes this column 0 in those.
fn join_new(entries: &mut [Entry], rank: usize, column: u16, k: u8)
    requires rank { rank < length entries.old }
    requires slots { let s = get_or entries.old rank no_slot in AreSlots s.prime (length s.row) (suc rank) entries.old }
    requires factor { k < (get_or entries.old rank no_slot).prime }
    requires column { IsColumn (get_or entries.old rank no_slot).row column }
    ensures { entries.new ≡ joined_slots rank column k entries.old }
{
    let (older, later) = entries.split_at_mut(rank);
    let entry = &mut later[0];
    entry.scale(column, rank + 1, k);
    clear_all(older, entry, rank + 1);
}

fn clear_places(entries: &mut [Entry], place: usize)
    requires { HaveRoom (suc place) entries.old }
    ensures { entries.new ≡ map (placed_slot place) entries.old }
{
    for entry in entries.iter_mut() {
        entry.clear_place(place);
    }
}

fn clear_by_all(entry: &mut Entry, others: &[Entry], count: usize)
    requires slot { IsSlot entry.old.prime (length entry.old.row) count entry.old }
    requires others { AreSlots entry.old.prime (length entry.old.row) count others.now }
    requires pivots { HavePivots (length entry.old.row) others.now }
    ensures { entry.new ≡ cleared_by_each count others.now entry.old }
{
    for other in others {
        entry.clear_by(other, count);
    }
}

fn clear_all(entries: &mut [Entry], other: &Entry, count: usize)
    requires slot { IsSlot other.now.prime (length other.now.row) count other.now }
    requires slots { AreSlots other.now.prime (length other.now.row) count entries.old }
    requires pivot { HasPivot (length other.now.row) other.now }
    ensures { entries.new ≡ map (cleared_slot count other.now) entries.old }
{
    for entry in entries.iter_mut() {
        entry.clear_by(other, count);
    }
}

/// Makes the columns of the pivots of all entries 0 in a row.
pub fn reduce(entries: &[Entry], row: &mut Row)
    requires slots { AreSlots row.old.prime (length row.old.entries) 0 entries.now }
    requires pivots { HavePivots (length row.old.entries) entries.now }
    ensures { (n : ℕ) → row.new ≡ record row.old { entries = reduce_by row.old.prime (all_seen n entries.now) row.old.entries } }
{
    for entry in entries {
        entry.clear_row(row);
    }
}

/// The first entry whose pivot is at this column.
pub fn place_of(entries: &[Entry], column: u16) -> Option<usize>
    ensures some { IfSome result (λ i. IsPlaceOf column entries.now i) }
    ensures none { IfNone result ((k : ℕ) → k < length entries.now → pivot_at entries.now k ≢ column) }
{
    for (i, entry) in entries.iter().enumerate() {
        if entry.pivot() == column {
            return Some(i);
        }
    }
    None
}

/// Makes room for so many rows and as many coefficients in each.
pub fn make_room(
    entries: &mut Vec<Entry>,
    prime: Prime,
    width: u16,
    room: usize,
) -> Result<(), NoMemory>
    ensures grown { IsGrown (prime_value prime) width room entries.old.items entries.new.items }
    ensures whole { OnOk result (AreGrown (prime_value prime) width room entries.old.items entries.new.items) }
{
    grow_all(entries, room)?;
    add_entries(entries, prime, width, room)
}

fn grow_all(entries: &mut [Entry], room: usize) -> Result<(), NoMemory>
    ensures ok { OnOk result (entries.new ≡ map (grown_slot room) entries.old) }
    ensures err { OnErr result ((i : ℕ) × (entries.new ≡ grown_front room i entries.old)) }
{
    for entry in entries.iter_mut() {
        entry.make_room(room)?;
    }
    Ok(())
}

fn add_entries(
    entries: &mut Vec<Entry>,
    prime: Prime,
    width: u16,
    room: usize,
) -> Result<(), NoMemory>
    ensures more { (j : ℕ) × (entries.new.items ≡ entries.old.items ++ replicate j (new_slot (prime_value prime) width room)) }
    ensures enough { OnOk result (room ≤ length entries.new.items) }
{
    let alloc = *entries.allocator();
    for _count in entries.len()..room {
        entries.push(Entry::new(alloc, prime, width, room)?)?;
    }
    Ok(())
}
