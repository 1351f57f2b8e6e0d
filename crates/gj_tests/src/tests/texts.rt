//! A proof that no command writes: no function is known that needs residues.
use gj_proof::{read_proof, write_proof};
use std::alloc::Global;

const BY_RESIDUES: &[u8] = b"gj-proof 2\nclaim extreme\norder 2\nf 1/2\npoint 0\npoint 1\n\
cover 0 0 lower 0 0\ncover 1 1 upper 1 1\nmodulus 2305843009213693951\n\
row period\npivot 0\nrow f\nreduce 0\npivot 1\nend\n";

/// A proof by residues is written as it was read.
fn proof_by_residues(alloc: Global) -> Option<bool> {
    let Ok(proof) = read_proof(alloc, BY_RESIDUES) else {
        return None;
    };
    let text = write_proof(alloc, &proof).ok()?;
    Some(text.as_slice() == BY_RESIDUES)
}

#[test]
fn texts(rt: HostRuntime) {
    assert!(rt; proof_by_residues(rt.alloc()) == Some(true));
}
