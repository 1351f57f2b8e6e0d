//! Numbers modulo 2^61 - 1.
ghost use Rattle.std.specs.Prelude.{ℕ, pos, ◌≡◌, ◌<◌, ◌-ℤ◌, ◌*ℤ◌};
ghost use Rattle.gj_shape.specs.Residues.{residue, inverse};
ghost use Rattle.gj_theory.specs.Modulus.{modulus};

use gj_theory::residues::MODULUS;

/// The residue of a whole number.
pub(crate) fn residue_of(x: i128) -> u64
    ensures value { pos result ≡ residue modulus x }
    ensures below { result < modulus }
{
    x.rem_euclid(MODULUS as i128) as u64
}

/// The residue of the product of two numbers.
pub(crate) fn product(u: u64, x: u64) -> u64
    ensures value { pos result ≡ residue modulus (pos u *ℤ pos x) }
    ensures below { result < modulus }
{
    (u128::from(u) * u128::from(x) % MODULUS as u128) as u64
}

/// The residue of x - u e.
pub(crate) fn less_product(x: u64, u: u64, e: u64) -> u64
    requires { x < modulus }
    ensures value { pos result ≡ residue modulus (pos x -ℤ pos u *ℤ pos e) }
    ensures below { result < modulus }
{
    (x + (MODULUS - product(u, e))) % MODULUS
}

/// The inverse of a residue, if it has one: by Euclid's algorithm, with each remainder as a
/// multiple of x.
pub(crate) fn inverse_of(x: u64) -> Option<u64>
    requires { x < modulus }
    ensures { result ≡ inverse modulus (pos x) }
{
    let mut remainder = MODULUS;
    let mut next = x;
    let mut factor = 0;
    let mut next_factor = 1;
    while next != 0 {
        let quotient = remainder / next;
        let rest = remainder % next;
        let rest_factor = less_product(factor, quotient, next_factor);
        remainder = next;
        next = rest;
        factor = next_factor;
        next_factor = rest_factor;
    }
    if remainder == 1 { Some(factor) } else { None }
}
