//! Runs of `check` and `derive` on steps over x and y whole and z continuous, none below 0, with
//! 2x + y <= 7 and x + 3y - z <= 9: two cuts, and 4x + 5y - 2z <= 19, which x = 2, y = 3, z = 2 has.
use gj_port::{MemSink, MemSource};
use gj_top::{Status, run};
use std::alloc::Global;

/// The steps, with their claims.
const DERIVATION: &[u8] = b"gj-derivation 1\ncolumn x whole 0 -\ncolumn y whole 0 -\n\
    column z continuous 0 -\nconstraint first <= 7\nentry x 2\nentry y 1\n\
    constraint second <= 9\nentry x 1\nentry y 3\nentry z -1\n\
    step a gmic\nby first 3/5\nby second -1/5\n\
    claim -20/3\nterm x -5/3\nterm y -5/3\nterm z 5/6\n\
    step b gmic\nby first -1/5\nby second 2/5\n\
    claim -75/4\nterm x -5/2\nterm y -25/4\nterm z 5/2\n\
    step best linear\nby a 6/5\nby b 2/5\nby first -1/2\n\
    claim -19\nterm x -4\nterm y -5\nterm z 2\nend\n";

/// The steps, without them.
const DRAFTS: &[u8] = b"gj-derivation 1\ncolumn x whole 0 -\ncolumn y whole 0 -\n\
    column z continuous 0 -\nconstraint first <= 7\nentry x 2\nentry y 1\n\
    constraint second <= 9\nentry x 1\nentry y 3\nentry z -1\n\
    step a gmic\nby first 3/5\nby second -1/5\n\
    step b gmic\nby first -1/5\nby second 2/5\n\
    step best linear\nby a 6/5\nby b 2/5\nby first -1/2\nend\n";

/// From x <= 7 it follows that -x >= -7, and no more.
const TOO_STRONG: &[u8] = b"gj-derivation 1\ncolumn x whole 0 -\nconstraint first <= 7\nentry x 1\n\
    step cap linear\nby first -1\nclaim -6\nterm x -1\nend\n";

/// The row of the first step has a whole right side, so it shows nothing.
const LOST: &[u8] = b"gj-derivation 1\ncolumn x whole 0 -\nconstraint first <= 7\nentry x 1\n\
    step a gmic\nby first 1\nstep b linear\nby a 1\nend\n";

/// Whether a run of the command over the input ends so, and writes so much.
fn ends(alloc: Global, command: &str, input: &[u8], ended: Status, written: &[u8]) -> Option<bool> {
    let words = vec![in alloc; String::from_str(alloc, command).ok()?].ok()?;
    let mut source = MemSource::with_step(alloc, input, 512, &[0]).ok()?;
    let mut sink = MemSink::with_step(alloc, 2000, 512, &[0]).ok()?;
    let status = run(alloc, words.as_slice(), &mut source, &mut sink);
    Some(status == ended && sink.taken() == written)
}

#[test]
fn runs_on_derivations(rt: HostRuntime) {
    let alloc = rt.alloc();
    let accepted = b"accepted derivation\n";
    let lost = b"rejected line 7 lost a\n";
    let too_strong = b"rejected line 5 right -7\n";
    assert!(rt; ends(alloc, "check", DERIVATION, Status::Done, accepted) == Some(true));
    assert!(rt; ends(alloc, "derive", DRAFTS, Status::Done, DERIVATION) == Some(true));
    assert!(rt; ends(alloc, "check", TOO_STRONG, Status::Rejected, too_strong) == Some(true));
    assert!(rt; ends(alloc, "derive", LOST, Status::Rejected, lost) == Some(true));
}
