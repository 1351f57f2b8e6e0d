//! Numbers modulo 2^61 - 1: a product of two has at most 122 bits, so nothing wraps.
ghost use Rattle.std.specs.Prelude.{pos, ◌≡◌, ◌<◌, ◌≤◌, ◌^◌, ◌≤ℤ◌, ◌<ℤ◌, ◌-ℤ◌, ◌*ℤ◌};
ghost use Rattle.gj_shape.specs.Residues.{residue, inverse};
ghost use Rattle.gj_theory.specs.Modulus.{modulus};
ghost use Rattle.gj_check_groups.specs.RowNumbers.{IsResidue};

use gj_proof::MODULUS;

/// The residue of a number.
pub fn residue_of(x: i128) -> i128
    ensures { result ≡ residue modulus x }
{
    x.rem_euclid(MODULUS)
}

/// The residue of the product of two residues.
pub fn product(u: i128, x: i128) -> i128
    requires first { IsResidue u }
    requires second { IsResidue x }
    ensures { result ≡ residue modulus (u *ℤ x) }
{
    residue_of(u * x)
}

/// The residue of x - u e, of residues; u may be the modulus too.
pub fn less_product(x: i128, u: i128, e: i128) -> i128
    requires number { IsResidue x }
    requires low { pos 0 ≤ℤ u }
    requires high { u ≤ℤ pos modulus }
    requires second { IsResidue e }
    ensures { result ≡ residue modulus (x -ℤ u *ℤ e) }
{
    difference(x, exact_product(u, e))
}

/// The product of a residue or the modulus and a residue.
fn exact_product(u: i128, e: i128) -> i128
    requires low { pos 0 ≤ℤ u }
    requires high { u ≤ℤ pos modulus }
    requires second { IsResidue e }
    ensures value { result ≡ u *ℤ e }
    ensures low { pos 0 ≤ℤ result }
    ensures high { result <ℤ pos (2 ^ 123) }
{
    u * e
}

/// The residue of x - y.
fn difference(x: i128, y: i128) -> i128
    requires number { IsResidue x }
    requires low { pos 0 ≤ℤ y }
    requires high { y <ℤ pos (2 ^ 123) }
    ensures { result ≡ residue modulus (x -ℤ y) }
{
    residue_of(x - y)
}

/// The same of natural numbers.
fn less_multiple(x: u64, u: u64, e: u64) -> u64
    requires number { x < modulus }
    requires first { u ≤ modulus }
    requires second { e < modulus }
    ensures value { pos result ≡ residue modulus (pos x -ℤ pos u *ℤ pos e) }
    ensures below { result < modulus }
{
    less_product(i128::from(x), i128::from(u), i128::from(e)) as u64
}

/// The inverse of a number below the modulus, if it has one: by Euclid's algorithm, with each
/// remainder as a multiple of x.
pub(crate) fn inverse_of(x: u64) -> Option<u64>
    requires { x < modulus }
    ensures { result ≡ inverse modulus (pos x) }
{
    let mut remainder = MODULUS as u64;
    let mut next = x;
    let mut factor = 0;
    let mut next_factor = 1;
    while next != 0 {
        let rest = remainder % next;
        let rest_factor = less_multiple(factor, remainder / next, next_factor);
        remainder = next;
        next = rest;
        factor = next_factor;
        next_factor = rest_factor;
    }
    if remainder == 1 { Some(factor) } else { None }
}
