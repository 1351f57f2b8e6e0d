//! Steps whose claims may be left open.
use crate::step::{Combination, Step, Verdict};
use crate::steps::Failure;
use gj_problem::{Entry, Inequality, Problem};
use gj_shape::List;

/// What a draft says of its claim.
#[derive(Drop)]
pub enum Claim {
    /// Nothing: the terms and the right side are to be found.
    Absent,
    /// The terms: the greatest right side that they may have is to be found.
    Terms(List<Entry>),
    /// The whole claim.
    Given(Inequality),
}

/// A step whose claim may be left open.
#[derive(Drop)]
pub struct Draft {
    /// What it adds up. Its lines are the constraints of the problem, and then the drafts.
    pub combination: Combination,
    /// What it says of its claim.
    pub claim: Claim,
}

/// A claim that is found, or what stands against it.
#[derive(Drop)]
pub(crate) enum Filled {
    /// The claim.
    Claim(Inequality),
    /// What stands against it. It is not `Accepted`.
    Against(Verdict),
}

/// The step of a draft, or what stands against it.
#[derive(Drop)]
pub enum Shown {
    /// The step.
    Step(Step),
    /// What stands against it. It is not `Accepted`.
    Against(Verdict),
}

/// The steps of drafts, or the first draft that ends them.
#[derive(Drop)]
pub enum Derived {
    /// For each draft its step, or why it is left out.
    All(List<Shown>),
    /// This draft, counted from 0, names one that is left out, or that does not come before it; and
    /// what those before it show.
    Lost(usize, List<Shown>),
    /// The claim of this draft is given, and it does not follow; and what those before it show.
    Failed(Failure, List<Shown>),
}

/// What drafts have reached: the problem with the claims that they show, and where the lines that
/// drafts name are among its constraints.
#[derive(Drop)]
pub struct Reached {
    /// The problem.
    pub(crate) problem: Problem,
    /// For each line that drafts may name its constraint, or nothing if it is left out.
    pub(crate) lines: List<Option<usize>>,
}
