//! Relations that rest on themselves through a negated atom.
ghost use Rattle.std.specs.Prelude.{◌≡◌, ◌<◌, All, IfOk, IsTrue, length};
ghost use Rattle.util_digraph.specs.GraphView.{arrows_of, nodes_of};
ghost use Rattle.rules.specs.ItemLinks.{LinksWithin, IsFirstSuch, meets_component};
ghost use Rattle.unroll_strata.specs.Strata.{IsCrossed};

use rules::item_links::Links;
use std::alloc::{AllocError, Global};
use util_digraph::{Graph, components_of};

/// Whether a relation of the body is in the head's own component.
fn is_crossed(components: &[usize], link: &Links) -> bool
    requires { LinksWithin (length components.now) link.now }
    ensures { result ≡ meets_component components.now link.now }
{
    let own = components[link.head];
    link.body.iter().any(|node| components[*node] == own)
}

/// The number, from 1, of the first of which a relation of the body is in the head's own component.
fn first_crossed(components: &[usize], links: &[Links]) -> Option<usize>
    requires { All (LinksWithin (length components.now)) links.now }
    ensures { IsFirstSuch (λ link. IsTrue (meets_component components.now link)) links.now result }
{
    for (place, link) in links.iter().enumerate() {
        if is_crossed(components, link) {
            return Some(place + 1);
        }
    }
    None
}

/// The number, from 1, of the first rule of which the head and the relation of a negated atom lead to each other in the graph of what
/// rests on what. A rule is given by its head, and by the relations of the negated atoms of its body.
pub(crate) fn first_crossed_link(
    graph: &Graph,
    alloc: Global,
    negations: &[Links],
) -> Result<Option<usize>, AllocError>
    requires { All (LinksWithin (nodes_of graph.now)) negations.now }
    ensures { IfOk result (IsFirstSuch (IsCrossed (arrows_of graph.now)) negations.now) }
{
    let components = components_of(graph, alloc)?;
    Ok(first_crossed(&components, negations))
}
