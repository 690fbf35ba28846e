//! The values of nodes of networks.
ghost use Rattle.std.specs.Prelude.{◌≡◌, length, IfOk};

use crate::made::net_of;
use propnet::{Joint, Net};
use smallvec::SmallVec;
use std::alloc::{AllocError, Global};
use std::io::Write as _;
use std::process::Abort;
use std::test::Fail;
use test_games::texts::{MATCH, UNBASED};

/// The bits of the nodes in a state of one word, in room that was full of ones.
fn bits_in(
    rt: &impl Abort,
    alloc: Global,
    net: &Net,
    state: u64,
    joint: Option<&Joint>,
) -> Result<Vec<u64>, AllocError> {
    assert!(rt; net.base() <= 64);
    let mut bits = vec![in alloc; u64::MAX; net.nodes() / 64 + 1]?;
    net.eval(&[state], joint, &mut bits);
    Ok(bits)
}

/// The words of the nodes in a state of one word, in room that was full of ones.
fn words_in(
    rt: &impl Abort,
    alloc: Global,
    net: &Net,
    state: u64,
    joints: &[Joint],
) -> Result<Vec<u64>, AllocError> {
    assert!(rt; net.base() <= 64);
    assert!(rt; !joints.is_empty());
    assert!(rt; joints.len() <= 64);
    let mut words = vec![in alloc; u64::MAX; net.nodes()]?;
    net.eval64(&[state], joints, &mut words);
    Ok(words)
}

/// The number of the transition of a base proposition.
fn transition_of(rt: &impl Abort, net: &Net, p: usize) -> usize
    requires { length net.now.transitions.items ≡ net.now.base }
{
    assert!(rt; p < net.base());
    net.transition(p) as usize
}

#[test]
fn four_joint_moves_are_told_at_once(rt: HostRuntime) -> Result<(), Fail> {
    let net = net_of(&rt, MATCH)?;
    let joints = [
        SmallVec::from_slice(rt.alloc(), &[0, 0])?,
        SmallVec::from_slice(rt.alloc(), &[0, 1])?,
        SmallVec::from_slice(rt.alloc(), &[1, 0])?,
        SmallVec::from_slice(rt.alloc(), &[1, 1])?,
    ];
    let words = words_in(&rt, rt.alloc(), &net, 0, &joints)?;
    assert_eq!(rt; words.get(transition_of(&rt, &net, 0)).copied(), Some(15));
    assert_eq!(rt; words.get(transition_of(&rt, &net, 1)).copied(), Some(9));
    Ok(())
}

#[test]
fn gate_that_reads_nothing_is_right(rt: HostRuntime) -> Result<(), Fail> {
    let net = net_of(&rt, UNBASED)?;
    let bits = bits_in(&rt, rt.alloc(), &net, 0, None)?;
    let number = transition_of(&rt, &net, 0);
    assert!(rt; number < 64);
    assert_eq!(rt; bits.first().map_or(0, |word| (word >> number) & 1), 1);
    Ok(())
}

/// A game of one base proposition that stays as it is, and so many inputs: with the gate, the view and the transition behind
/// them it has four nodes more than inputs.
fn staying(rt: &HostRuntime, inputs: usize) -> Result<Net, Fail>
    ensures { IfOk result (λ net. length net.transitions.items ≡ net.base) }
{
    let mut text = Vec::from_slice(rt.alloc(), b"(role a)(base p)(<= (next p) (true p))")?;
    for m in 0..inputs {
        write!(text, "(input a {m})").map_err(|_| AllocError)?;
    }
    net_of(rt, &text)
}

/// The bits of 63, 64 and 65 nodes, where the proposition and the first input are on: they are the first two nodes, and the
/// last three follow the proposition.
const EDGES: [(usize, u64, Option<u64>); 3] = [
    (63, 3 | 7 << 60, None),
    (64, 3 | 7 << 61, Some(0)),
    (65, 3 | 3 << 62, Some(1)),
];

#[test]
fn bits_past_the_last_node_are_off(rt: HostRuntime) -> Result<(), Fail> {
    let first = SmallVec::from_slice(rt.alloc(), &[0])?;
    for (nodes, low, high) in EDGES {
        let net = staying(&rt, nodes - 4)?;
        assert_eq!(rt; net.nodes(), nodes);
        let bits = bits_in(&rt, rt.alloc(), &net, 1, Some(&first))?;
        assert_eq!(rt; bits.first().copied(), Some(low));
        assert_eq!(rt; bits.get(1).copied(), high);
    }
    Ok(())
}

/// So many joint moves, each of which gives the input of its own number.
fn each_input(rt: &HostRuntime, count: u32) -> Result<Vec<Joint>, AllocError> {
    let mut joints = Vec::new(rt.alloc());
    for m in 0..count {
        joints.push(SmallVec::from_slice(rt.alloc(), &[m])?)?;
    }
    Ok(joints)
}

#[test]
fn bits_past_the_last_joint_move_are_off(rt: HostRuntime) -> Result<(), Fail> {
    let net = staying(&rt, 64)?;
    for (count, all) in [(63, u64::MAX >> 1), (64, u64::MAX)] {
        let words = words_in(&rt, rt.alloc(), &net, 1, &each_input(&rt, count)?)?;
        assert_eq!(rt; words.first().copied(), Some(all));
        assert_eq!(rt; words.get(transition_of(&rt, &net, 0)).copied(), Some(all));
        for m in 0..64 {
            assert_eq!(rt; words.get(m + 1).copied(), Some((1 << m) & all));
        }
    }
    Ok(())
}
