//! The network of propositions of a game: its nodes, and their values in a state and a joint move.
#![tactic(auto)]

mod bits;
mod builder;
mod building;
mod compiling;
mod eval;
mod fault;
mod grouping;
mod inputs;
mod label;
mod laws;
mod marking;
mod net;
mod net_gates;
mod net_view;
mod node;
mod nodes;
mod pushing;
mod sharing;
mod slot;
mod sourcing;
mod wide;
mod words;

pub use bits::get_bit;
pub use fault::NetFault;
pub use game::Joint;
pub use label::Label;
pub use laws::{
    each_name_is_one_node, nodes_are_those_of_the_rules, values_solve_the_equations,
    views_say_what_holds,
};
pub use net::Net;
pub use node::Node;
pub use nodes::Nodes;
pub use statement::Name;
