//! What items join, by the numbers of relations.
ghost use Rattle.std.specs.Prelude.{◌≡◌, ◌<◌, ◌+◌, ◌++◌, All, IfOk, OnOk, length, map};
ghost use Rattle.rules.specs.Arrows.{arrows_from};
ghost use Rattle.util_digraph.specs.GraphView.{arrows_of, nodes_of};
ghost use Rattle.kif.specs.View.{tree_of, trees_in};
ghost use Rattle.unroll_strata.specs.Numbering.{item_arrows, items_arrows, negation_of, link_in};

use crate::negated::negated_by;
use crate::numbers::{Numbers, numbers_of};
use kif::Expr;
use rules::item_links::Links;
use rules_relations::{asked_by, head_of};
use std::alloc::{AllocError, Global};
use util_digraph::Graph;

/// Adds an arrow from a node to each of others.
fn add_arrows(graph: &mut Graph, head: usize, body: &[usize]) -> Result<(), AllocError>
    requires head { head < nodes_of graph.old }
    requires body { All (λ number. number < nodes_of graph.old) body.now }
    ensures nodes { nodes_of graph.new ≡ nodes_of graph.old }
    ensures arrows { OnOk result (arrows_of graph.new ≡ arrows_of graph.old ++ arrows_from head body.now) }
{
    for number in body {
        graph.add(head, *number)?;
    }
    Ok(())
}

/// Adds an arrow from the head of an item to the relation of each literal of its body.
fn add_item<'a>(
    alloc: Global,
    numbers: &Numbers<'a>,
    item: &'a Expr<Global>,
    graph: &mut Graph,
) -> Result<(), AllocError>
    requires { length numbers.now < nodes_of graph.old }
    ensures nodes { nodes_of graph.new ≡ nodes_of graph.old }
    ensures arrows { OnOk result (arrows_of graph.new ≡ arrows_of graph.old ++ item_arrows numbers.now (tree_of item.now)) }
{
    let asked = asked_by(alloc, item)?;
    let body = numbers_of(alloc, numbers, &asked)?;
    add_arrows(graph, numbers.number(&head_of(item)), &body)
}

/// The graph with an arrow from the head of each item to the relation of each literal of its body. The last node is that of all relations
/// that no item heads.
pub(crate) fn graph_of<'a>(
    alloc: Global,
    numbers: &Numbers<'a>,
    items: &'a [Expr<Global>],
) -> Result<Graph, AllocError>
    ensures nodes { IfOk result (λ graph. nodes_of graph ≡ length numbers.now + 1) }
    ensures arrows { IfOk result (λ graph. arrows_of graph ≡ items_arrows numbers.now (trees_in items.now)) }
{
    let Some(nodes) = numbers.len().checked_add(1) else {
        return Err(AllocError);
    };
    let mut graph = Graph::new(alloc, nodes)?;
    for item in items {
        add_item(alloc, numbers, item, &mut graph)?;
    }
    Ok(graph)
}

/// The head of an item, and the relations of the negated atoms of its body.
fn negation<'a>(
    alloc: Global,
    numbers: &Numbers<'a>,
    item: &'a Expr<Global>,
) -> Result<Links, AllocError>
    ensures { IfOk result (λ link. link_in link ≡ negation_of numbers.now (tree_of item.now)) }
{
    let negated = negated_by(alloc, item)?;
    let body = numbers_of(alloc, numbers, &negated)?;
    Ok(Links {
        head: numbers.number(&head_of(item)),
        body,
    })
}

/// The heads of items, and the relations of the negated atoms of their bodies.
pub(crate) fn negations_of<'a>(
    alloc: Global,
    numbers: &Numbers<'a>,
    items: &'a [Expr<Global>],
) -> Result<Vec<Links>, AllocError>
    ensures { IfOk result (λ links. map link_in links.items ≡ map (negation_of numbers.now) (trees_in items.now)) }
{
    let mut links = Vec::new(alloc);
    for item in items {
        let link = negation(alloc, numbers, item)?;
        links.push(link)?;
    }
    Ok(links)
}
