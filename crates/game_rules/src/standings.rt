//! Lists the atoms that are asked for in play.
ghost use Rattle.std.specs.Prelude.{◌≡◌, ◌<◌, ◌++◌, [], ◌∷◌, length, OnOk, IfOk, if◌then◌else◌};
ghost use Rattle.ground_instances.specs.GroundView.{kinds_of};
ghost use Rattle.game_rules.specs.RulePlay.{kind_at};
ghost use Rattle.game_rules.specs.Standings.{seeks, standing_at, all_standing};

use crate::kinds::{kind_of, number_of};
use crate::standing::{Sought, Standing};
use ground_instances::{FlatGround, Kind};
use std::alloc::{AllocError, Global};

/// Whether atoms of this kind are listed.
fn is_sought(sought: Sought, kind: Kind) -> bool
    ensures { result ≡ seeks sought kind }
{
    match (sought, kind) {
        (Sought::Given, Kind::Now(_) | Kind::Does(..)) => true,
        (Sought::Named(by), _) => number_of(by, kind).is_some(),
        (Sought::Goals(role), Kind::Goal(r, _)) => r as usize == role,
        (Sought::Ends, Kind::Terminal) => true,
        _ => false,
    }
}

/// Lists an atom, if atoms of its kind are listed.
fn add_standing(
    ground: &FlatGround,
    sought: Sought,
    atom: usize,
    list: &mut Vec<Standing>,
) -> Result<(), AllocError>
    requires { atom < length (kinds_of ground.now) }
    ensures { OnOk result (list.new.items ≡ list.old.items ++
        (if seeks sought (kind_at (kinds_of ground.now) atom) then standing_at (kinds_of ground.now) atom ∷ [] else [])) }
{
    let kind = kind_of(ground, atom);
    if !is_sought(sought, kind) {
        return Ok(());
    }
    list.push(Standing {
        atom: atom as u32,
        kind,
    })?;
    Ok(())
}

/// The atoms that are sought, in order.
pub fn list_standing(
    alloc: Global,
    ground: &FlatGround,
    sought: Sought,
) -> Result<Vec<Standing>, AllocError>
    ensures { IfOk result (λ list. list.items ≡ all_standing sought (kinds_of ground.now)) }
{
    let mut list = Vec::new(alloc);
    for atom in 0..ground.atoms() {
        add_standing(ground, sought, atom, &mut list)?;
    }
    Ok(list)
}
