//! Sums and multiples of slices of residues, entry by entry: by lanes where there are enough for a vector.

ghost use Rattle.std.specs.Prelude.{◌≡◌, ◌==◌, ◌<◌, ◌≤◌, ◌+◌, ◌*◌, ◌%◌, ◌↔◌, IsTrue, length};
ghost use Rattle.std.specs.List.{list_all};
ghost use Rattle.pq_base.specs.Table.{AllBelow};
ghost use Rattle.pq_base.specs.Prime.{prime_value};
ghost use Rattle.fp_rows.specs.Rows.{add_scaled, scale_row};
ghost use Rattle.fp_rows.specs.Row.{IsZeroRow};

use crate::lanes::{are_zeros, looked_up, multiples, sums};
use pq_base::Prime;
use std::simd::prelude::*;

/// Adds `k` times the residues of `ys` to those of `xs`, which has as many.
pub fn add_scaled(prime: Prime, xs: &mut [u8], ys: &[u8], k: u8)
    requires width { length xs.old ≡ length ys.now }
    requires left { AllBelow (prime_value prime) xs.old }
    requires right { AllBelow (prime_value prime) ys.now }
    requires factor { k < prime_value prime }
    ensures { xs.new ≡ add_scaled (prime_value prime) k xs.old ys.now }
{
    let p = prime.value();
    // of `ys`, since a compiler that knows how few entries `xs` has makes no vector instructions for them
    if ys.len() < 16 {
        add_scaled_one_by_one(p, xs, ys, k);
    } else {
        add_scaled_by_lanes(p, xs, ys, k);
    }
}

/// Replaces the residues of `xs` by `k` times them.
pub fn scale(prime: Prime, xs: &mut [u8], k: u8)
    requires entries { AllBelow (prime_value prime) xs.old }
    requires factor { k < prime_value prime }
    ensures { xs.new ≡ scale_row (prime_value prime) k xs.old }
{
    let p = prime.value();
    if xs.len() < 16 {
        scale_one_by_one(p, xs, k);
    } else {
        scale_by_lanes(p, xs, k);
    }
}

/// Whether each entry is 0.
pub fn is_zero(xs: &[u8]) -> bool
    ensures { IsTrue result ↔ IsZeroRow xs.now }
{
    if xs.len() < 16 {
        each_is_zero(xs)
    } else {
        is_zero_by_lanes(xs)
    }
}

// Adds by vectors. The last one, which may overlap with the one before, is read first and written last.
fn add_scaled_by_lanes(p: u8, xs: &mut [u8], ys: &[u8], k: u8)
    requires few { p ≤ 13 }
    requires wide { 16 ≤ length xs.old }
    requires width { length xs.old ≡ length ys.now }
    requires left { AllBelow p xs.old }
    requires right { AllBelow p ys.now }
    requires factor { k < p }
    ensures { xs.new ≡ add_scaled p k xs.old ys.now }
{
    let table = multiples(p, k);
    let last = xs.len() - 16;
    let last_products = looked_up(table, u8x16::from_slice(&ys[last..]));
    let last_sums = sums(p, u8x16::from_slice(&xs[last..]), last_products);
    let mut i = 0;
    while i < last {
        let products = looked_up(table, u8x16::from_slice(&ys[i..]));
        sums(p, u8x16::from_slice(&xs[i..]), products).copy_to_slice(&mut xs[i..]);
        i += 16;
    }
    last_sums.copy_to_slice(&mut xs[last..]);
}

fn add_scaled_one_by_one(p: u8, xs: &mut [u8], ys: &[u8], k: u8)
    requires few { p ≤ 13 }
    requires width { length xs.old ≡ length ys.now }
    requires left { AllBelow p xs.old }
    requires right { AllBelow p ys.now }
    requires factor { k < p }
    ensures { xs.new ≡ add_scaled p k xs.old ys.now }
{
    for i in 0..xs.len() {
        xs[i] = remainder(xs[i] + k * ys[i], p);
    }
}

// Multiplies by vectors, of which the last one is read first and written last.
fn scale_by_lanes(p: u8, xs: &mut [u8], k: u8)
    requires few { p ≤ 13 }
    requires wide { 16 ≤ length xs.old }
    requires entries { AllBelow p xs.old }
    requires factor { k < p }
    ensures { xs.new ≡ scale_row p k xs.old }
{
    let table = multiples(p, k);
    let last = xs.len() - 16;
    let last_products = looked_up(table, u8x16::from_slice(&xs[last..]));
    let mut i = 0;
    while i < last {
        looked_up(table, u8x16::from_slice(&xs[i..])).copy_to_slice(&mut xs[i..]);
        i += 16;
    }
    last_products.copy_to_slice(&mut xs[last..]);
}

fn scale_one_by_one(p: u8, xs: &mut [u8], k: u8)
    requires few { p ≤ 13 }
    requires entries { AllBelow p xs.old }
    requires factor { k < p }
    ensures { xs.new ≡ scale_row p k xs.old }
{
    for i in 0..xs.len() {
        xs[i] = remainder(k * xs[i], p);
    }
}

// Tests by vectors, of which the last one may overlap with the one before.
fn is_zero_by_lanes(xs: &[u8]) -> bool
    requires wide { 16 ≤ length xs.now }
    ensures { IsTrue result ↔ IsZeroRow xs.now }
{
    let last = xs.len() - 16;
    let mut i = 0;
    while i < last {
        if !are_zeros(u8x16::from_slice(&xs[i..])) {
            return false;
        }
        i += 16;
    }
    are_zeros(u8x16::from_slice(&xs[last..]))
}

fn each_is_zero(xs: &[u8]) -> bool
    ensures { result ≡ list_all (λ x. x == 0) xs.now }
{
    xs.iter().all(|x| *x == 0)
}

// The remainder of `n` by `p`, where the quotient is below 16.
#[inline(always)]
fn remainder(n: u8, p: u8) -> u8
    requires some { 0 < p }
    requires few { p ≤ 13 }
    requires small { n < 16 * p }
    ensures { result ≡ n % p }
{
    let n = less(n, 8 * p);
    let n = less(n, 4 * p);
    let n = less(n, 2 * p);
    less(n, p)
}

// The number less `m`, or the number where it is below `m`.
#[inline(always)]
fn less(n: u8, m: u8) -> u8
    requires positive { 0 < m }
    requires small { n < 2 * m }
    ensures below { result < m }
    ensures small { n < m → result ≡ n }
    ensures large { m ≤ n → result + m ≡ n }
{
    n.min(n.wrapping_sub(m))
}
