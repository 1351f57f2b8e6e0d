//! Whether a rule makes cuts.
ghost use Rattle.std.specs.Prelude.{IfSome, IfNone};
ghost use Rattle.gj_cut_text.specs.CutRules.{IsViolationOf, PassesTests};

use gj_minimal::find_violation;
use gj_proof::CutRule;
use gj_shape::Violation;

/// The first violation of the function of the rule, or None if there is none: then the rule makes
/// cuts. It takes no memory.
///
/// The mixed-integer cut has no violation.
pub fn violation_of_rule(rule: &CutRule) -> Option<Violation>
    ensures some { IfSome result (IsViolationOf rule.now) }
    ensures none { IfNone result (PassesTests rule.now) }
{
    match rule {
        CutRule::Gmic => None,
        CutRule::Table(shape) => find_violation(shape),
    }
}
