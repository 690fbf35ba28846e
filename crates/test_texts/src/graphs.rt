//! Graphs that are worked out by hand.
ghost use Rattle.std.specs.Prelude.{◌≡◌, ◌<◌, All, IfOk};
ghost use Rattle.util_digraph.specs.GraphView.{nodes_of};

use std::alloc::{AllocError, Global};
use std::test::Fail;
use util_digraph::{Arrow, Graph, components_of, order_of, ranks_of};

/// Each node but the last leads to the next.
fn chain(alloc: Global, nodes: usize) -> Result<Graph, AllocError>
    requires { 0 < nodes }
    ensures { IfOk result (λ graph. nodes_of graph ≡ nodes) }
{
    let mut graph = Graph::new(alloc, nodes)?;
    for node in 0..nodes - 1 {
        graph.add(node, node + 1)?;
    }
    Ok(graph)
}

/// The graph of these arrows.
fn graph_of(alloc: Global, nodes: usize, arrows: &[Arrow]) -> Result<Graph, AllocError>
    requires { All (λ arrow. (arrow.from < nodes) × (arrow.to < nodes)) arrows.now }
    ensures { IfOk result (λ graph. nodes_of graph ≡ nodes) }
{
    let mut graph = Graph::new(alloc, nodes)?;
    for arrow in arrows {
        graph.add(arrow.from, arrow.to)?;
    }
    Ok(graph)
}

#[test]
fn a_long_chain_is_ranked_until_it_is_closed(rt: HostRuntime) -> Result<(), Fail> {
    let mut graph = chain(rt.alloc(), 4_095)?;
    let rests = vec![in rt.alloc(); false; 4_095]?;
    let order = order_of(&graph, rt.alloc())?.ok_or("no order")?;
    let ranks = ranks_of(&graph, rt.alloc(), &order, &rests)?;
    assert_eq!(rt; order.len(), 4_095);
    assert_eq!(rt; ranks.first().copied(), Some(4_094));
    assert_eq!(rt; ranks.last().copied(), Some(0));
    graph.add(4_094, 0)?;
    assert!(rt; order_of(&graph, rt.alloc())?.is_none());
    let components = components_of(&graph, rt.alloc())?;
    let first = components.first().copied();
    assert!(rt; components.iter().all(|number| Some(*number) == first));
    Ok(())
}

#[test]
fn ranks_by_the_longest_way(rt: HostRuntime) -> Result<(), Fail> {
    let arrows = [
        Arrow { from: 0, to: 1 },
        Arrow { from: 0, to: 3 },
        Arrow { from: 1, to: 2 },
        Arrow { from: 1, to: 2 },
        Arrow { from: 2, to: 3 },
    ];
    let graph = graph_of(rt.alloc(), 5, &arrows)?;
    let rests = [true, true, true, true, false];
    let order = order_of(&graph, rt.alloc())?.ok_or("no order")?;
    let ranks = ranks_of(&graph, rt.alloc(), &order, &rests)?;
    assert_eq!(rt; ranks.as_slice(), [4, 3, 2, 1, 0].as_slice());
    Ok(())
}

#[test]
fn marks_what_leads_to_a_goal(rt: HostRuntime) -> Result<(), Fail> {
    let arrows = [
        Arrow { from: 0, to: 1 },
        Arrow { from: 1, to: 2 },
        Arrow { from: 2, to: 1 },
        Arrow { from: 3, to: 0 },
    ];
    let graph = graph_of(rt.alloc(), 5, &arrows)?;
    let marks = graph.leading(rt.alloc(), &[false, true, false, false, false])?;
    assert_eq!(rt;
        marks.as_slice(),
        [true, true, true, true, false].as_slice()
    );
    Ok(())
}

#[test]
fn numbers_what_leads_to_each_other(rt: HostRuntime) -> Result<(), Fail> {
    // 1 and 3 lead to each other, and so do 2, 4 and 5; 0 leads to the first, and those to the others
    let arrows = [
        Arrow { from: 0, to: 1 },
        Arrow { from: 1, to: 3 },
        Arrow { from: 3, to: 1 },
        Arrow { from: 3, to: 4 },
        Arrow { from: 4, to: 2 },
        Arrow { from: 2, to: 5 },
        Arrow { from: 5, to: 4 },
        Arrow { from: 6, to: 6 },
    ];
    let graph = graph_of(rt.alloc(), 7, &arrows)?;
    let components = components_of(&graph, rt.alloc())?;
    let groups: [usize; 7] = [0, 1, 2, 1, 2, 2, 3];
    for (one, group) in components.iter().zip(&groups) {
        for (other, other_group) in components.iter().zip(&groups) {
            assert!(rt; (one == other) == (group == other_group));
        }
    }
    Ok(())
}
