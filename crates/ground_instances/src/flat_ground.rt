//! The kept instances of a description in flat lists, and where their atoms stand in play.
ghost use Rattle.std.specs.Prelude.{◌≤◌, length, map};
ghost use Rattle.ground_instances.specs.Grounds.{IsSomeGround};
ghost use Rattle.ground_instances.specs.Props.{AreLaid-prop};
ghost use Rattle.statement.specs.RuleLimits.{most_roles};
ghost use Rattle.ground_instances.specs.Lists.{AreLaid, numbers_of_list};
ghost use Rattle.rules.specs.RuleSets.{texts_of};

use crate::found_list::FoundList;
use meaning::Kind;

/// The kept instances of a description, in order, with the literals of all of them in one list. Base propositions, and the inputs of
/// each role, are numbered from 0 in printed order, roles from 0 in the order in which the items state them, and atoms from 0 by first
/// appearance.
#[derive(Drop)]
pub struct FlatGround {
    pub roles: Vec<Vec<u8>>,
    pub base: Vec<Vec<u8>>,
    pub inputs: Vec<Vec<Vec<u8>>>,
    pub starts: Vec<bool>,
    pub kinds: Vec<Kind>,
    pub kept: FoundList,
    pub dropped: usize,
    pub ghost sound: { ∥ IsSomeGround (texts_of roles.items) (texts_of base.items) (map (λ v. texts_of v.items) inputs.items) starts.items kinds.items
        (numbers_of_list kept) dropped ∥₁ },
    pub ghost laid: { AreLaid kept } by { AreLaid-prop kept },
    pub ghost few_roles: { length roles.items ≤ most_roles },
}
