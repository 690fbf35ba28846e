//! What is listed so far.
use ground_instances::FoundList;
use ground_matching::RowStore;
use ground_terms::{Arena, NumberSet};

/// The terms, the atoms and the kept instances of the relations that are listed, for each word where the atoms of its relations stand, and the
/// rows that were made of them.
#[derive(Drop)]
pub struct Listing {
    pub arena: Arena,
    pub atoms: NumberSet,
    pub found: FoundList,
    pub store: RowStore,
}
