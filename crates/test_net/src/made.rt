//! What descriptions are made into.
ghost use Rattle.std.specs.Prelude.{◌≡◌, length, IfOk};

use game_rules::RuleGame;
use ground::{FlatGround, instantiate_flat_alone};
use kif::read;
use position::NetGame;
use propnet::Net;
use rules::RuleSet;
use statement::Width;
use std::alloc::{AllocGlobal, Global};
use std::test::Fail;

/// The rules of a description.
pub(crate) fn rules_of(alloc: Global, text: &[u8]) -> Result<RuleSet, Fail> {
    let items = read(alloc, text)?;
    Ok(RuleSet::check(alloc, &items)?)
}

/// The kept instances of a description.
pub(crate) fn flat_of<R: AllocGlobal>(rt: &R, text: &[u8]) -> Result<FlatGround, Fail> {
    let rules = rules_of(rt.alloc(), text)?;
    Ok(instantiate_flat_alone(rt, &rules, Width::Plain)?)
}

/// The network of a description.
pub(crate) fn net_of<R: AllocGlobal>(rt: &R, text: &[u8]) -> Result<Net, Fail>
    ensures { IfOk result (λ net. length net.transitions.items ≡ net.base) }
{
    let ground = flat_of(rt, text)?;
    Ok(Net::of_flat(rt.alloc(), &ground)?)
}

/// The game of a description, over its kept instances.
pub(crate) fn rule_game<R: AllocGlobal>(rt: &R, text: &[u8]) -> Result<RuleGame, Fail> {
    let ground = flat_of(rt, text)?;
    Ok(RuleGame::of_flat(rt.alloc(), ground)?)
}

/// The game of a description, over its network.
pub(crate) fn net_game<R: AllocGlobal>(rt: &R, text: &[u8]) -> Result<NetGame, Fail> {
    let ground = flat_of(rt, text)?;
    let net = Net::of_flat(rt.alloc(), &ground)?;
    Ok(NetGame::of_flat(rt.alloc(), ground, net)?)
}
