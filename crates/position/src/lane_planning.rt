//! Makes the tapes of play.
//!
//! The place of an atom behind a pass is how many atoms below it are asked. One structure serves what play goes on from and what
//! it does not: they differ in which atoms are asked.
ghost use Rattle.std.specs.Prelude.{◌≡◌, ◌<◌, ◌++◌, [], ◌∷◌, length, OnOk, IfOk, Some, if◌then◌else◌};
ghost use Rattle.ground_instances.specs.GroundView.{kinds_of};
ghost use Rattle.propnet.specs.Builders.{IsNetOf};
ghost use Rattle.propnet_tape.specs.Tapes.{IsTurnTapeOf};
ghost use Rattle.position.specs.declared.lane_plan.Probe.{Probe};
ghost use Rattle.position.specs.NetState.{is_asked as asked, view_of};
ghost use Rattle.position.specs.LanePlans.{places_of, asked_nodes, next_below, IsProbeOf, IsLanePlanOf};

use crate::lane_plan::{LanePlan, Probe, Scope};
use crate::net_planning::{list_ends, plan_goals, plan_legals};
use game_rules::kind_of;
use ground_instances::{FlatGround, Kind};
use propnet::Net;
use propnet_tape::Tape;
use std::alloc::{AllocError, Global};

/// Where what play asks of a state takes more words than these, a tape of the end alone is hardly shorter, and takes long to make.
const LONGEST_PROBE: usize = 1 << 14;

/// How the atoms that are asked of a state lie behind a pass.
#[derive(Drop)]
struct Layout {
    /// By atom how many atoms below it are asked: its place among them, if it is one.
    places: Vec<u32>,
    /// The nodes that tell of them, in order.
    nodes: Vec<u32>,
}

/// Whether atoms of this kind are asked of a state.
fn is_asked(scope: Scope, kind: Kind) -> bool
    ensures { result ≡ asked scope kind }
{
    match kind {
        Kind::Legal(..) => matches!(scope, Scope::WithMoves),
        Kind::Goal(..) | Kind::Terminal => true,
        _ => false,
    }
}

/// The number of the node that tells of an atom.
fn node_of(net: &Net, atom: u32) -> u32
    ensures { result ≡ view_of net.now.views.items atom }
{
    net.view(atom).unwrap_or(0)
}

/// Lists the node that tells of an atom, if it is asked.
fn add_asked(net: &Net, asks: bool, atom: u32, nodes: &mut Vec<u32>) -> Result<(), AllocError>
    ensures { OnOk result (nodes.new.items ≡ nodes.old.items ++ (if asks then view_of net.now.views.items atom ∷ [] else [])) }
{
    if asks {
        nodes.push(node_of(net, atom))?;
    }
    Ok(())
}

/// Lays out the atoms that are asked of a state.
fn lay_out(
    alloc: Global,
    ground: &FlatGround,
    net: &Net,
    scope: Scope,
) -> Result<Layout, AllocError>
    ensures places { IfOk result (λ layout. layout.places.items ≡ places_of scope (kinds_of ground.now)) }
    ensures nodes { IfOk result (λ layout. layout.nodes.items ≡ asked_nodes scope net.now.views.items (kinds_of ground.now)) }
{
    let mut places = Vec::new(alloc);
    let mut nodes = Vec::new(alloc);
    for atom in 0..ground.atoms() {
        places.push(nodes.len() as u32)?;
        let asks = is_asked(scope, kind_of(ground, atom));
        add_asked(net, asks, atom as u32, &mut nodes)?;
    }
    Ok(Layout { places, nodes })
}

/// The transitions of the base propositions.
fn list_next(alloc: Global, ground: &FlatGround, net: &Net) -> Result<Vec<u32>, AllocError>
    requires { ∥ IsNetOf ground.now net.now ∥₁ }
    ensures { IfOk result (λ nodes. nodes.items ≡ next_below net.now (length ground.now.starts.items)) }
{
    let mut nodes = Vec::new(alloc);
    for p in 0..ground.base() {
        nodes.push(net.transition(p))?;
    }
    Ok(nodes)
}

/// The tape of the transitions.
fn make_next(alloc: Global, ground: &FlatGround, net: &Net) -> Result<Tape, AllocError>
    requires { ∥ IsNetOf ground.now net.now ∥₁ }
    ensures { IfOk result (λ tape. IsTurnTapeOf net.now (next_below net.now (length ground.now.starts.items)) tape) }
{
    let next = list_next(alloc, ground, net)?;
    Tape::of_turns(alloc, net, &next)
}

/// The probe of a state.
fn make_probe(
    alloc: Global,
    ground: &FlatGround,
    net: &Net,
    scope: Scope,
    layout: &Layout,
) -> Result<Probe, AllocError>
    requires made { ∥ IsNetOf ground.now net.now ∥₁ }
    requires places { layout.now.places.items ≡ places_of scope (kinds_of ground.now) }
    requires nodes { layout.now.nodes.items ≡ asked_nodes scope net.now.views.items (kinds_of ground.now) }
    ensures told { IfOk result (IsProbeOf ground.now net.now) }
    ensures scope { IfOk result (λ probe. probe.scope ≡ scope) }
{
    Ok(Probe {
        scope,
        tape: Tape::new(alloc, net, &layout.nodes)?,
        ends: list_ends(alloc, ground, &layout.places)?,
        goals: plan_goals(alloc, ground, &layout.places)?,
    })
}

/// The probe of the end alone, where it pays beside one that takes so many words.
fn make_end_probe(
    alloc: Global,
    ground: &FlatGround,
    net: &Net,
    words: usize,
) -> Result<Option<Probe>, AllocError>
    requires { ∥ IsNetOf ground.now net.now ∥₁ }
    ensures { IfOk result (λ made. (t : Probe) → made ≡ Some t → IsProbeOf ground.now net.now t) }
{
    if words > LONGEST_PROBE {
        return Ok(None);
    }
    let layout = lay_out(alloc, ground, net, Scope::EndAlone)?;
    let probe = make_probe(alloc, ground, net, Scope::EndAlone, &layout)?;
    Ok(Some(probe))
}

/// The tapes of a network.
pub(crate) fn make_lane_plan(
    alloc: Global,
    ground: &FlatGround,
    net: &Net,
) -> Result<LanePlan, AllocError>
    requires { ∥ IsNetOf ground.now net.now ∥₁ }
    ensures { IfOk result (IsLanePlanOf ground.now net.now) }
{
    let layout = lay_out(alloc, ground, net, Scope::WithMoves)?;
    let probe = make_probe(alloc, ground, net, Scope::WithMoves, &layout)?;
    let end_probe = make_end_probe(alloc, ground, net, probe.tape.words())?;
    Ok(LanePlan {
        next: make_next(alloc, ground, net)?,
        probe,
        legals: plan_legals(alloc, ground, &layout.places)?,
        end_probe,
    })
}
