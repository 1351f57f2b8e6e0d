//! Minimal functions among the valid functions on all numbers.
ghost use Rattle.std.specs.Prelude.{List, map};
ghost use Rattle.gj_fields.specs.Fields.{AtMost};
ghost use Rattle.gj_fields.specs.Functions.{IsSamePoint, total_of, IsMinimalAmong, HasRules};
ghost use Rattle.gj_fields.specs.MixedCuts.{HasSlopesAtZero, Column, total_amount, total_weight};

use crate::reals::Reals;

/// Of all functions of period 1 from numbers to numbers of at least 0, those that are minimal among
/// the valid ones are those that are 0 at 0, subadditive and symmetric.
pub fn rules_of_minimal_functions_over_reals<K: Reals>()
    ensures among { (v : K.Number → K.Number) (f : K.Number) →
        HasRules K.field v f → IsMinimalAmong K.field v f }
    ensures only { (v : K.Number → K.Number) (f : K.Number) →
        IsMinimalAmong K.field v f → HasRules K.field v f }
{}

/// The cut of a row with continuous columns, by a function that meets the rules and has slopes at
/// 0: if points, each as often as it is used, and the entries of continuous columns times their
/// variables, numbers not below 0, add up to f modulo 1, the values at the points and the weights
/// times the variables add up to 1 or more.
pub fn mixed_cuts_over_reals<K: Reals>()
    ensures { (v : K.Number → K.Number) (f up down : K.Number) →
        HasRules K.field v f → HasSlopesAtZero K.field v up down →
        (points : List K.Number) (columns : List (Column K.field)) →
        IsSamePoint K.field
        (K.field.plus (total_of K.field points) (total_amount K.field columns)) f →
        AtMost K.field K.field.one
        (K.field.plus (total_of K.field (map v points))
        (total_weight K.field up down columns)) }
{}
