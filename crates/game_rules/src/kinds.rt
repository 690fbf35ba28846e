//! What the kind of an atom tells.
ghost use Rattle.std.specs.Prelude.{◌≡◌, ◌<◌, length, if◌then◌else◌};
ghost use Rattle.ground_instances.specs.GroundView.{kinds_of};
ghost use Rattle.game_rules.specs.RulePlay.{kind_at, number_named, goal_value};

use crate::naming::Naming;
use ground_instances::{FlatGround, Kind};

/// Where an atom stands in play.
pub fn kind_of(ground: &FlatGround, atom: usize) -> Kind
    requires { atom < length (kinds_of ground.now) }
    ensures { result ≡ kind_at (kinds_of ground.now) atom }
{
    ground.atom_kind(atom as u32)
}

/// The number that an atom of this kind names.
pub fn number_of(by: Naming, kind: Kind) -> Option<u32>
    ensures { result ≡ number_named by kind }
{
    match (by, kind) {
        (Naming::ByNext, Kind::Next(p)) => Some(p),
        (Naming::ByLegal(role), Kind::Legal(r, m)) if r as usize == role => Some(m),
        _ => None,
    }
}

/// The value that an atom of this kind gives a role, if it holds, else 0.
pub fn value_of(holds: bool, kind: Kind, role: usize) -> u8
    ensures { result ≡ (if holds then goal_value role kind else 0) }
{
    match kind {
        Kind::Goal(r, v) if holds && r as usize == role => v,
        _ => 0,
    }
}
