//! Residues in vectors of 16 lanes. In clauses a vector is the list of its lanes.

ghost use Rattle.std.specs.Prelude.{◌≡◌, ◌<◌, ◌≤◌, ◌*◌, ◌%◌, ◌↔◌, IsTrue, map, slice_index_or};
ghost use Rattle.pq_base.specs.Table.{AllBelow};
ghost use Rattle.fp_rows.specs.Rows.{add_rows, scale_row};
ghost use Rattle.fp_rows.specs.Row.{IsZeroRow};
ghost use Rattle.fp_rows.specs.Lanes.{lane_numbers};

use std::simd::prelude::*;

/// The products of `k` and each number below 16, modulo `p`.
#[inline(always)]
pub(crate) fn multiples(p: u8, k: u8) -> u8x16
    requires few { p ≤ 13 }
    requires factor { k < p }
    ensures { result ≡ scale_row p k lane_numbers }
{
    let numbers = u8x16::from_array([0, 1, 2, 3, 4, 5, 6, 7, 8, 9, 10, 11, 12, 13, 14, 15]);
    let products = remainders(numbers * u8x16::splat(k), 8 * p);
    let products = remainders(products, 4 * p);
    let products = remainders(products, 2 * p);
    remainders(products, p)
}

/// What a table has at the number in each lane.
#[inline(always)]
pub(crate) fn looked_up(table: u8x16, xs: u8x16) -> u8x16
    requires { AllBelow 16 xs }
    ensures { result ≡ map (λ x. slice_index_or table x 0) xs }
{
    table.swizzle_dyn(xs)
}

/// The sums of residues, lane by lane.
#[inline(always)]
pub(crate) fn sums(p: u8, xs: u8x16, ys: u8x16) -> u8x16
    requires few { p ≤ 13 }
    requires left { AllBelow p xs }
    requires right { AllBelow p ys }
    ensures { result ≡ add_rows p xs ys }
{
    remainders(xs + ys, p)
}

/// Whether each lane is 0.
#[inline(always)]
pub(crate) fn are_zeros(xs: u8x16) -> bool
    ensures { IsTrue result ↔ IsZeroRow xs }
{
    xs.simd_ne(u8x16::splat(0)).to_bitmask() == 0
}

// The remainders by `m` of numbers below twice `m`: a subtraction, undone where it wraps.
#[inline(always)]
fn remainders(xs: u8x16, m: u8) -> u8x16
    requires few { m ≤ 128 }
    requires small { AllBelow (2 * m) xs }
    ensures { result ≡ map (λ x. x % m) xs }
{
    xs.simd_min(xs - u8x16::splat(m))
}
