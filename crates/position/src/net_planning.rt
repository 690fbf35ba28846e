//! Lists where the atoms that tell of a state stand among those that are asked.
//!
//! These lists are made once, so play looks at no atom's kind. A ground has at most one atom that makes a move legal, so no two
//! words are joined.
ghost use Rattle.std.specs.Prelude.{◌≡◌, ◌<◌, ◌++◌, ℕ, None, Some, length, get_or, slice_index, OnOk, IfOk, if◌then◌else◌};
ghost use Rattle.ground_instances.specs.Grounds.{texts_at};
ghost use Rattle.ground_instances.specs.GroundView.{kinds_of, inputs_of};
ghost use Rattle.game_rules.specs.declared.naming.Naming.TheVariants.{ByLegal};
ghost use Rattle.game_rules.specs.RulePlay.{names};
ghost use Rattle.position.specs.declared.lane_plan.RoleGoals.{RoleGoals};
ghost use Rattle.position.specs.declared.lane_plan.RoleLegals.{RoleLegals};
ghost use Rattle.position.specs.LanePlans.{legal_named, legal_pair, legals_below, goal_pair, goals_of, ends_of};

use crate::lane_plan::{RoleGoals, RoleLegals};
use game_rules::{Naming, Sought, Standing, kind_of, list_standing, number_of, value_of};
use ground_instances::{FlatGround, Kind};
use std::alloc::{AllocError, Global};

/// The place of an atom.
fn place_of(places: &[u32], atom: u32) -> u32
    ensures { result ≡ slice_index places.now atom }
{
    if (atom as usize) < places.len() {
        return places[atom as usize];
    }
    0
}

/// The places of the atoms that end the game.
pub(crate) fn list_ends(
    alloc: Global,
    ground: &FlatGround,
    places: &[u32],
) -> Result<Vec<u32>, AllocError>
    ensures { IfOk result (λ list. list.items ≡ ends_of places.now (kinds_of ground.now)) }
{
    let atoms = list_standing(alloc, ground, Sought::Ends)?;
    let mut list = Vec::new(alloc);
    for place in 0..atoms.len() {
        list.push(place_of(places, atoms[place].atom))?;
    }
    Ok(list)
}

/// The place of a goal of a role, with its value.
fn goal_at(places: &[u32], here: Standing, role: usize) -> (u32, u8)
    ensures { result ≡ goal_pair places.now role here }
{
    (place_of(places, here.atom), value_of(true, here.kind, role))
}

/// The places of the goals of a role, with their values.
fn list_goals(
    alloc: Global,
    ground: &FlatGround,
    places: &[u32],
    role: usize,
) -> Result<Vec<(u32, u8)>, AllocError>
    ensures { IfOk result (λ list. list.items ≡ goals_of places.now (kinds_of ground.now) role) }
{
    let atoms = list_standing(alloc, ground, Sought::Goals(role))?;
    let mut list = Vec::new(alloc);
    for place in 0..atoms.len() {
        list.push(goal_at(places, atoms[place], role))?;
    }
    Ok(list)
}

/// Notes an atom at the move that it makes legal, if it does so.
fn note_legal(kind: Kind, atom: u32, role: usize, found: &mut Vec<Option<u32>>)
    ensures size { length found.new.items ≡ length found.old.items }
    ensures each { (m : ℕ) → m < length found.old.items
        → get_or found.new.items m None ≡ (if names (ByLegal role) kind m then Some atom else get_or found.old.items m None) }
{
    let Some(number) = number_of(Naming::ByLegal(role), kind) else {
        return;
    };
    if (number as usize) < found.len() {
        found[number as usize] = Some(atom);
    }
}

/// Room for an atom for each move, with none in it.
fn new_found(alloc: Global, moves: usize) -> Result<Vec<Option<u32>>, AllocError>
    ensures size { IfOk result (λ found. length found.items ≡ moves) }
    ensures none { IfOk result (λ found. (m : ℕ) → get_or found.items m None ≡ None) }
{
    let mut found = Vec::new(alloc);
    for _i in 0..moves {
        found.push(None)?;
    }
    Ok(found)
}

/// By move the atom that makes it legal.
fn find_legals(
    alloc: Global,
    ground: &FlatGround,
    role: usize,
    moves: usize,
) -> Result<Vec<Option<u32>>, AllocError>
    ensures size { IfOk result (λ found. length found.items ≡ moves) }
    ensures each { IfOk result (λ found. (m : ℕ) → m < moves → get_or found.items m None ≡ legal_named (kinds_of ground.now) role m
        (length (kinds_of ground.now))) }
{
    let mut found = new_found(alloc, moves)?;
    for atom in 0..ground.atoms() {
        note_legal(kind_of(ground, atom), atom as u32, role, &mut found);
    }
    Ok(found)
}

/// Lists the place of the atom that makes a move legal, if there is one.
fn add_legal(
    places: &[u32],
    atom: Option<u32>,
    number: u32,
    list: &mut Vec<(u32, u32)>,
) -> Result<(), AllocError>
    ensures { OnOk result (list.new.items ≡ list.old.items ++ legal_pair places.now atom number) }
{
    if let Some(atom) = atom {
        list.push((place_of(places, atom), number))?;
    }
    Ok(())
}

/// The places of the legal atoms of a role, with their moves, ascending by move.
fn list_legals(
    alloc: Global,
    ground: &FlatGround,
    places: &[u32],
    role: usize,
) -> Result<Vec<(u32, u32)>, AllocError>
    requires { role < length (inputs_of ground.now) }
    ensures { IfOk result (λ list. list.items ≡ legals_below places.now (kinds_of ground.now) role (length (texts_at (inputs_of ground.now) role))) }
{
    let found = find_legals(alloc, ground, role, ground.inputs(role))?;
    let mut list = Vec::new(alloc);
    for number in 0..found.len() {
        add_legal(places, found[number], number as u32, &mut list)?;
    }
    Ok(list)
}

/// The places of the goals of each role.
pub(crate) fn plan_goals(
    alloc: Global,
    ground: &FlatGround,
    places: &[u32],
) -> Result<Vec<RoleGoals>, AllocError>
    ensures size { IfOk result (λ plans. length plans.items ≡ length (inputs_of ground.now)) }
    ensures each { IfOk result (λ plans. (r : ℕ) (d : RoleGoals) → r < length (inputs_of ground.now)
        → (get_or plans.items r d).goals.items ≡ goals_of places.now (kinds_of ground.now) r) }
{
    let mut plans = Vec::new(alloc);
    for role in 0..ground.roles() {
        let goals = list_goals(alloc, ground, places, role)?;
        plans.push(RoleGoals { goals })?;
    }
    Ok(plans)
}

/// The places of the legal atoms of each role.
pub(crate) fn plan_legals(
    alloc: Global,
    ground: &FlatGround,
    places: &[u32],
) -> Result<Vec<RoleLegals>, AllocError>
    ensures size { IfOk result (λ plans. length plans.items ≡ length (inputs_of ground.now)) }
    ensures each { IfOk result (λ plans. (r : ℕ) (d : RoleLegals) → r < length (inputs_of ground.now)
        → (get_or plans.items r d).legals.items ≡ legals_below places.now (kinds_of ground.now) r (length (texts_at (inputs_of ground.now) r))) }
{
    let mut plans = Vec::new(alloc);
    for role in 0..ground.roles() {
        let legals = list_legals(alloc, ground, places, role)?;
        plans.push(RoleLegals { legals })?;
    }
    Ok(plans)
}
