//! The words of the inputs, for up to 64 joint moves at a time.
ghost use Rattle.std.specs.Prelude.{ℕ, ◌≡◌, ◌≢◌, ◌+◌, ◌<◌, ◌≤◌, length, sum, slice_index};
ghost use Rattle.std.specs.Int.{bit_at};
ghost use Rattle.propnet.specs.Values.{lane};
ghost use Rattle.propnet.specs.Network.{given};
ghost use Rattle.game.specs.Joints.{joint_at};
ghost use Rattle.propnet.specs.Given.{AreGiven};

use crate::Joint;

/// Writes 0 to the words from one number up to another.
fn clear(out: &mut [u64], start: usize, end: usize)
    requires { end ≤ length out.old }
    ensures cleared { (n : ℕ) → start ≤ n → n < end → slice_index out.new n ≡ 0 }
    ensures before { (n : ℕ) → n < start → slice_index out.new n ≡ slice_index out.old n }
{
    for n in start..end {
        out[n] = 0;
    }
}

/// The word with a bit set that was 0.
fn with_bit(word: u64, k: usize) -> u64
    requires within { k < 64 }
    requires fresh { bit_at word k ≡ 0 }
    ensures same { bit_at result k ≡ 1 }
    ensures others { (j : ℕ) → j ≢ k → bit_at result j ≡ bit_at word j }
{
    word | (1 << k)
}

/// Sets bit k in the word of the input that a joint move gives to a role, whose inputs stand from `start` up to `end`.
fn mark_given(out: &mut [u64], start: usize, end: usize, k: usize, joint: &[u32], role: usize)
    requires rises { start ≤ end }
    requires within { end ≤ length out.old }
    requires at_most_all { k < 64 }
    requires fresh { (n : ℕ) → start ≤ n → n < end → lane out.old k n ≡ 0 }
    ensures given { (m : ℕ) → start + m < end → lane out.new k (start + m) ≡ given joint.now role m }
    ensures others { (n j : ℕ) → j ≢ k → lane out.new j n ≡ lane out.old j n }
    ensures before { (n : ℕ) → n < start → slice_index out.new n ≡ slice_index out.old n }
{
    if role >= joint.len() {
        return;
    }
    let m = joint[role] as usize;
    if m >= end - start {
        return;
    }
    out[start + m] = with_bit(out[start + m], k);
}

/// Writes the words of a role's inputs, which stand from `start` up to `end`.
fn write_role(out: &mut [u64], start: usize, end: usize, joints: &[Joint], role: usize)
    requires rises { start ≤ end }
    requires within { end ≤ length out.old }
    requires at_most_all { length joints.now ≤ 64 }
    ensures given { (m k : ℕ) → start + m < end → k < length joints.now → lane out.new k (start + m) ≡ given (joint_at joints.now k) role m }
    ensures before { (n : ℕ) → n < start → slice_index out.new n ≡ slice_index out.old n }
{
    clear(out, start, end);
    for k in 0..joints.len() {
        mark_given(out, start, end, k, &joints[k], role);
    }
}

/// Writes the words of the inputs, of which each role has so many, behind those of the base propositions.
pub(crate) fn write_inputs(out: &mut [u64], base: usize, inputs: &[usize], joints: &[Joint])
    requires within { base + sum inputs.now ≤ length out.old }
    requires at_most_all { length joints.now ≤ 64 }
    ensures given { AreGiven base inputs.now joints.now out.new }
    ensures before { (n : ℕ) → n < base → slice_index out.new n ≡ slice_index out.old n }
{
    let mut start = base;
    for role in 0..inputs.len() {
        let end = start + inputs[role];
        write_role(out, start, end, joints, role);
        start = end;
    }
}
