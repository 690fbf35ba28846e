//! What is asked of rows whose instances have all the same body.
use crate::kept_keys::Sought;
use crate::literal_steps::LiteralStep;
use ground_matching::RowPlan;
use rules::Alternative;

/// What is asked of a row of an alternative whose instances have all the same body.
#[derive(Drop)]
pub struct Lean {
    /// Whether it is such an alternative; if not, the others say nothing.
    pub shares: bool,
    /// The alternative with those literals alone that a row may fail at.
    pub alternative: Alternative,
    /// Its plan.
    pub plan: RowPlan,
    /// What is done with each of these literals.
    pub steps: Vec<LiteralStep>,
    /// What is kept of the keys of long atoms.
    pub sought: Vec<Option<Sought>>,
}
