//! The language of descriptions: what its items, words and limits are, what each description is refused for, and the laws.
#![tactic(auto)]

mod first;
mod forms;
mod laws;
mod limits;
mod places;
mod roles;
mod variables;
mod words;

pub use first::first_tests;
pub use forms::{Connective, connective_of, is_variable_name, split_item, split_word};
pub use laws::{
    accepted_items_have_lawful_names, accepted_sets_are_acyclic, acyclic_sets_are_ranked,
    dependence_is_tested, dependence_is_transitive, lawful_items_have_no_fault,
    relations_stand_in_order, the_fault_is_the_first,
};
pub use limits::{ALTERNATIVES_LIMIT, ITEMS_LIMIT, ROLES_LIMIT, VARIABLES_LIMIT};
pub use roles::{are_same_trees, role_of};
pub use statement::{RuleExcess, RuleFault};
pub use words::Word;
