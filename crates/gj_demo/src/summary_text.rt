//! The summary of the demonstration.
ghost use Rattle.std.specs.Prelude.{◌≡◌, ◌-◌, ◌<◌, ◌≤◌, ◌^◌, count_by, is_some, length, IfOk};
ghost use Rattle.gj_cover.specs.CoverOf.{IsCoverOf};
ghost use Rattle.gj_faces.specs.TightPairs.{AreTightPairsOf};
ghost use Rattle.gj_shape.specs.Additive.{IsTight};
ghost use Rattle.gj_shape.specs.Perturbation.{AreHalvesInBounds};
ghost use Rattle.gj_shape.specs.FunctionData.{FunctionData, IsWithinBounds};
ghost use Rattle.gj_shape.specs.declared.extremality.Halves.{Halves};
ghost use Rattle.gj_proof.specs.declared.claim.Claim.TheVariants.{NotExtreme};
ghost use Rattle.gj_extreme.specs.Decision.{IsDecided};
ghost use Rattle.gj_demo.specs.Demo.{greatest_demo, IsDemo};
ghost use Rattle.gj_demo.specs.Summary.{HasSummary, lines_with};

use crate::function::demo_function;
use gj_cover::{Cover, cover_of_pairs};
use gj_extreme::{DecideFault, decide_by_cover};
use gj_faces::{TightPairs, count_additive_triangles};
use gj_function_lines::push_order_line;
use gj_lex::push_count_line;
use gj_proof::{Claim, Proof, push_halves_line};
use gj_shape::{Halves, Shape};
use std::alloc::{AllocError, Global};

/// The summary of the decision on the function of the demonstration with this number: its order,
/// how many of its triangles are additive, how many of its intervals are covered and in how many
/// components, and the order and scale of the halves by which it is not extreme. There is no other
/// verdict.
pub fn summary(alloc: Global, n: u32) -> Result<Vec<u8>, AllocError>
    requires low { 1 ≤ n }
    requires high { n ≤ greatest_demo }
    ensures { IfOk result (λ text. HasSummary n text.items) }
{
    let shape = demo_function(alloc, n)?;
    let pairs = TightPairs::new(alloc, &shape)?;
    let triangles = count_additive_triangles(&shape, &pairs);
    let cover = cover_of_pairs(alloc, &shape, &pairs)?;
    let covered = count_covered(cover.component.as_slice());
    let components = cover.count;
    let proof = verdict(alloc, &shape, &pairs, cover, n)?;
    text_of(
        alloc,
        n,
        shape.order(),
        triangles,
        covered,
        components,
        halves_of(&proof),
    )
}

/// The summary with these numbers and halves.
fn text_of(
    alloc: Global,
    n: u32,
    order: u32,
    triangles: u32,
    covered: u32,
    components: u32,
    halves: &Halves,
) -> Result<Vec<u8>, AllocError>
    requires covered { covered ≤ order }
    requires halves { AreHalvesInBounds halves.now }
    ensures { IfOk result (λ text. text.items ≡ lines_with n order triangles covered
        (order - covered) components halves.now) }
{
    let mut text = Vec::new(alloc);
    push_count_line(&mut text, b"demo ", n)?;
    push_order_line(&mut text, order)?;
    text.extend_from_slice(b"f 1/2\n")?;
    push_count_line(&mut text, b"triangles ", triangles)?;
    push_count_line(&mut text, b"covered ", covered)?;
    push_count_line(&mut text, b"uncovered ", order - covered)?;
    push_count_line(&mut text, b"components ", components)?;
    text.extend_from_slice(b"verdict not-extreme\n")?;
    push_halves_line(&mut text, halves)?;
    Ok(text)
}

/// The proof that the function of the demonstration with this number is not extreme. It is never
/// anything else, and never too wide.
fn verdict(
    alloc: Global,
    shape: &Shape,
    pairs: &TightPairs,
    cover: Cover,
    n: u32,
) -> Result<Proof, AllocError>
    requires low { 1 ≤ n }
    requires demo { IsDemo n shape.now }
    requires within { IsWithinBounds shape.now }
    requires pairs { AreTightPairsOf shape.now pairs.now }
    requires cover { IsCoverOf shape.now.order (IsTight shape.now) cover }
    ensures decided { IfOk result (IsDecided shape.now) }
    ensures not_extreme { IfOk result (λ claim. (h : Halves) × (claim ≡ NotExtreme shape.now h)) }
{
    match decide_by_cover(alloc, shape, pairs, cover) {
        Ok(proof) => Ok(proof),
        Err(DecideFault::Memory(error)) => Err(error),
        Err(DecideFault::NotContinuous(_index)) => unreachable!(),
        Err(DecideFault::Wide) => unreachable!(),
    }
}

/// The halves of a proof that a function is not extreme.
fn halves_of(proof: &Proof) -> &Halves
    requires { (f : FunctionData) × (h : Halves) × (proof.now ≡ NotExtreme f h) }
    ensures halves { (f : FunctionData) (h : Halves) → proof.now ≡ NotExtreme f h → result.now ≡ h }
    ensures bounds { AreHalvesInBounds result.now }
{
    match proof.claim() {
        Claim::NotExtreme(_, halves) => halves,
        _ => unreachable!(),
    }
}

/// How many of the intervals have a component.
fn count_covered(component: &[Option<u32>]) -> u32
    requires { length component.now < 2 ^ 32 }
    ensures { result ≡ count_by is_some component.now }
{
    component.iter().filter(|number| number.is_some()).count() as u32
}
