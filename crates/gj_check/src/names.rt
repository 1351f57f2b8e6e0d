//! The rule `name`: the names of a row differ.
ghost use Rattle.std.specs.Prelude.{ℕ, ◌≡◌, ◌≢◌, ◌<◌, All, length, map, IfOk, IsTrue};
ghost use Rattle.gj_proof.specs.Rules.{AtIndex, MeetsName};
ghost use Rattle.gj_check.specs.CutRows.{HaveDifferentNames};

use gj_lex::Name;
use gj_proof::CutTerm;
use indexmap::IndexSet;
use std::alloc::{AllocError, Global};

/// The index of the first term whose name is that of the basic variable or of a term before it; the
/// number of terms if each name is new. The names of `known`, the terms of another row, differ: for
/// terms that have them, and not that of the basic variable, no set of names is needed.
pub(crate) fn first_repeated(
    alloc: Global,
    known: &[CutTerm],
    basic: &Name,
    terms: &[CutTerm],
) -> Result<usize, AllocError>
    requires { HaveDifferentNames known.now }
    ensures new { IfOk result (λ n. (i : ℕ) → i < n → AtIndex terms.now i (MeetsName basic.now)) }
    ensures repeated { IfOk result (λ n. n < length terms.now →
        AtIndex terms.now n (λ before t. MeetsName basic.now before t → ⊥)) }
{
    if have_known_names(known, basic, terms) {
        return Ok(terms.len());
    }
    first_seen(alloc, basic, terms)
}

/// If true, the terms have the names of `known` in their order, and none is that of the basic
/// variable.
fn have_known_names(known: &[CutTerm], basic: &Name, terms: &[CutTerm]) -> bool
    ensures { IsTrue result → (map (λ t. t.name) terms.now ≡ map (λ t. t.name) known.now)
        × All (λ t. t.name ≢ basic.now) terms.now }
{
    if terms.len() != known.len() {
        return false;
    }
    for (index, term) in terms.iter().enumerate() {
        let name = term.name.bytes();
        if name != known[index].name.bytes() || name == basic.bytes() {
            return false;
        }
    }
    true
}

/// The index of the first term whose name is that of the basic variable or of a term before it; the
/// number of terms if each name is new.
fn first_seen(alloc: Global, basic: &Name, terms: &[CutTerm]) -> Result<usize, AllocError>
    ensures new { IfOk result (λ n. (i : ℕ) → i < n → AtIndex terms.now i (MeetsName basic.now)) }
    ensures repeated { IfOk result (λ n. n < length terms.now →
        AtIndex terms.now n (λ before t. MeetsName basic.now before t → ⊥)) }
{
    let mut seen: IndexSet<&[u8]> = IndexSet::with_capacity(alloc, terms.len())?;
    seen.insert(basic.bytes())?;
    for (index, term) in terms.iter().enumerate() {
        if !seen.insert(term.name.bytes())? {
            return Ok(index);
        }
    }
    Ok(terms.len())
}
