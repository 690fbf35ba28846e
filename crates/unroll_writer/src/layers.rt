//! Which relations are written as layers, and their names there.
use crate::emitted::LayerNames;
use std::alloc::{AllocError, Global};

/// Relations that are written as layers: for each the place of the first item that heads it; and for each layer, from the first, their names
/// in this order. Where no rule asks two atoms of them a layer has what is derived in so many steps, and else in so many or fewer.
#[derive(Drop)]
pub struct Layers {
    pub items: Vec<usize>,
    pub names: Vec<Vec<Vec<u8>>>,
    pub is_linear: bool,
}

/// The names of relations in a layer.
fn names_in(alloc: Global, names: &LayerNames, layer: u32) -> Result<Vec<Vec<u8>>, AllocError> {
    let mut list = Vec::new(alloc);
    for relation in &names.relations {
        list.push(Vec::from_slice(alloc, names.get(*relation, layer))?)?;
    }
    Ok(list)
}

/// Relations that are written as layers, by the items that head them, of each of which the relation is given.
pub(crate) fn layers_by_items(
    alloc: Global,
    names: &LayerNames,
    heads: &[u32],
) -> Result<Layers, AllocError> {
    let mut items = Vec::new(alloc);
    for relation in &names.relations {
        if let Some(place) = heads.iter().position(|head| *head == *relation) {
            items.push(place)?;
        }
    }
    let mut all = Vec::new(alloc);
    for layer in 1..=names.layers {
        all.push(names_in(alloc, names, layer)?)?;
    }
    Ok(Layers {
        items,
        names: all,
        is_linear: names.is_linear,
    })
}
