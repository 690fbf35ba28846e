//! Tapes beside the networks that they were made of.
use crate::made::rules_of;
use ground::instantiate;
use propnet::{Joint, Net, get_bit};
use propnet_tape::Tape;
use smallvec::SmallVec;
use std::alloc::{AllocError, AllocGlobal, Global};
use std::process::Abort;
use std::test::Fail;
use std::thread::Threads;
use test_games::texts::MATCH;

/// The network of a description.
fn net_of<R: Threads + Sync + AllocGlobal>(rt: &R, text: &[u8]) -> Result<Net, Fail> {
    let rules = rules_of(rt.alloc(), text)?;
    let ground = instantiate(rt, &rules)?;
    Ok(Net::compile(rt.alloc(), &ground)?)
}

/// The joint move of a lane of the network of two coins.
fn joint_of(alloc: Global, lane: usize) -> Result<Joint, AllocError> {
    let one = (lane / 4 % 2) as u32;
    let other = (lane / 8 % 2) as u32;
    SmallVec::from_slice(alloc, &[one, other])
}

/// The words of the states of all lanes, of which lane k has state k % 4 and the joint move of lane k.
fn words_of(rt: &impl Abort, alloc: Global, net: &Net) -> Result<Vec<u64>, AllocError> {
    let mut joints = Vec::new(alloc);
    for lane in 0..64usize {
        joints.push(joint_of(alloc, lane)?)?;
    }
    let mut words = vec![in alloc; 0u64; net.sources()]?;
    assert!(rt; joints.len() <= 64);
    net.write_joints(&joints, &mut words);
    assert!(rt; words.len() == 6);
    words[0] = 0xAAAA_AAAA_AAAA_AAAA;
    words[1] = 0xCCCC_CCCC_CCCC_CCCC;
    Ok(words)
}

/// The word of each node, by one pass in room that was full of ones, over the tape for all joint moves or that for turns.
fn told_by_tape(
    rt: &impl Abort,
    alloc: Global,
    net: &Net,
    words: &[u64],
    turns: bool,
) -> Result<Vec<u64>, AllocError> {
    let mut kept = Vec::new(alloc);
    for n in 0..net.nodes() {
        assert!(rt; n < 64);
        kept.push(n as u32)?;
    }
    assert!(rt; kept.iter().all(|n| (*n as usize) < net.nodes()));
    let tape = if turns {
        Tape::of_turns(alloc, net, &kept)?
    } else {
        Tape::new(alloc, net, &kept)?
    };
    let mut room = vec![in alloc; u64::MAX; tape.words()]?;
    tape.run(words, &mut room);
    let mut told = Vec::new(alloc);
    for k in 0..kept.len() {
        told.push(tape.word(&room, k))?;
    }
    Ok(told)
}

/// The bits of the nodes in the state and for the joint move of a lane.
fn told_by_net(
    rt: &impl Abort,
    alloc: Global,
    net: &Net,
    lane: usize,
) -> Result<Vec<u64>, AllocError> {
    let joint = joint_of(alloc, lane)?;
    let mut bits = vec![in alloc; 0u64; net.nodes() / 64 + 1]?;
    let state = [lane as u64 % 4, 0];
    assert!(rt; net.sources() <= 64);
    net.eval(&state, Some(&joint), &mut bits);
    Ok(bits)
}

/// Whether the bits of a lane are those of a pass.
fn agree(rt: &impl Abort, told: &[u64], bits: &[u64], lane: usize) {
    assert!(rt; lane < 64);
    for n in 0..told.len() {
        assert!(rt; n < 64 && !bits.is_empty());
        assert_eq!(rt; (told[n] >> lane) & 1, get_bit(bits, n));
    }
}

#[test]
fn tapes_tell_what_the_network_tells(rt: HostRuntime) -> Result<(), Fail> {
    let alloc = rt.alloc();
    let net = net_of(&rt, MATCH)?;
    let words = words_of(&rt, alloc, &net)?;
    for turns in [false, true] {
        let told = told_by_tape(&rt, alloc, &net, &words, turns)?;
        assert_eq!(rt; told.len(), 34);
        for lane in 0..64usize {
            let bits = told_by_net(&rt, alloc, &net, lane)?;
            agree(&rt, &told, &bits, lane);
        }
    }
    Ok(())
}
