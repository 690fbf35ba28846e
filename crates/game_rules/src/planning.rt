//! Lists the atoms that are asked for in play.
ghost use Rattle.std.specs.Prelude.{◌≡◌, ◌<◌, ℕ, length, get_or, IfOk};
ghost use Rattle.ground_instances.specs.GroundView.{kinds_of, inputs_of};
ghost use Rattle.game_rules.specs.Plans.{IsRolePlanOf, IsPlanOf};
ghost use Rattle.game_rules.specs.declared.plan.RolePlan.{RolePlan};

use crate::naming::Naming;
use crate::plan::{RolePlan, RulePlan};
use crate::standing::Sought;
use crate::standings::list_standing;
use ground_instances::FlatGround;
use std::alloc::{AllocError, Global};

/// The atoms that tell of a role.
fn plan_role(alloc: Global, ground: &FlatGround, role: usize) -> Result<RolePlan, AllocError>
    ensures { IfOk result (λ plan. IsRolePlanOf (kinds_of ground.now) role plan) }
{
    Ok(RolePlan {
        legals: list_standing(alloc, ground, Sought::Named(Naming::ByLegal(role)))?,
        goals: list_standing(alloc, ground, Sought::Goals(role))?,
    })
}

/// The atoms that tell of each role.
fn plan_roles(alloc: Global, ground: &FlatGround) -> Result<Vec<RolePlan>, AllocError>
    ensures size { IfOk result (λ plans. length plans.items ≡ length (inputs_of ground.now)) }
    ensures each { IfOk result (λ plans. (r : ℕ) (d : RolePlan) → r < length (inputs_of ground.now)
        → IsRolePlanOf (kinds_of ground.now) r (get_or plans.items r d)) }
{
    let mut plans = Vec::new(alloc);
    for role in 0..ground.roles() {
        plans.push(plan_role(alloc, ground, role)?)?;
    }
    Ok(plans)
}

/// The plan of an instantiation.
pub(crate) fn make_plan(alloc: Global, ground: &FlatGround) -> Result<RulePlan, AllocError>
    ensures { IfOk result (λ plan. IsPlanOf ground.now plan) }
{
    Ok(RulePlan {
        given: list_standing(alloc, ground, Sought::Given)?,
        nexts: list_standing(alloc, ground, Sought::Named(Naming::ByNext))?,
        ends: list_standing(alloc, ground, Sought::Ends)?,
        roles: plan_roles(alloc, ground)?,
    })
}
