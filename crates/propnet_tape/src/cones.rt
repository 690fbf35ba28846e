//! Which nodes of a network need a literal, for some or for others that do.
ghost use Rattle.std.specs.Prelude.{ℕ, Bool, true, ◌≡◌, ◌+◌, ◌<◌, ◌≤◌, length, All, IfOk};
ghost use Rattle.propnet.specs.Nets.{gates_of};
ghost use Rattle.propnet_tape.specs.Marks.{is_and_gate, is_or_gate, is_marked, AllMarked, TermMarked, TermsMarked, IsClosedFrom};

use propnet::{Name, Net};
use std::alloc::{AllocError, Global};

/// Whether a node is an and gate.
pub(crate) fn is_and(name: Name) -> bool
    ensures { result ≡ is_and_gate name }
{
    match name {
        Name::Base(_) => false,
        Name::Input(_, _) => false,
        Name::Not(_) => false,
        Name::And(_) => true,
        Name::View(_) => false,
        Name::Transition(_) => false,
    }
}

/// Whether a node is the or of what it reads.
pub(crate) fn is_or(name: Name) -> bool
    ensures { result ≡ is_or_gate name }
{
    match name {
        Name::Base(_) => false,
        Name::Input(_, _) => false,
        Name::Not(_) => false,
        Name::And(_) => false,
        Name::View(_) => true,
        Name::Transition(_) => true,
    }
}

/// Marks nodes.
fn mark_all(marks: &mut Vec<bool>, numbers: &[u32])
    requires { All (λ n. n < length marks.old.items) numbers.now }
    ensures count { length marks.new.items ≡ length marks.old.items }
    ensures marked { AllMarked marks.new.items numbers.now }
    ensures more { (n : ℕ) → is_marked marks.old.items n ≡ true → is_marked marks.new.items n ≡ true }
    ensures above { (n m : ℕ) → All (λ k. k < n) numbers.now → n ≤ m → is_marked marks.new.items m ≡ is_marked marks.old.items m }
{
    for number in numbers {
        marks[*number as usize] = true;
    }
}

/// Marks what an or needs of a node that it reads: the node, or what it reads if it is an and gate.
fn mark_term(net: &Net, n: u32, marks: &mut Vec<bool>)
    requires node { n < length (gates_of net.now) }
    requires count { length marks.old.items ≡ length (gates_of net.now) }
    ensures count { length marks.new.items ≡ length marks.old.items }
    ensures marked { TermMarked (gates_of net.now) marks.new.items n }
    ensures more { (m : ℕ) → is_marked marks.old.items m ≡ true → is_marked marks.new.items m ≡ true }
    ensures above { (m : ℕ) → n < m → is_marked marks.new.items m ≡ is_marked marks.old.items m }
{
    let (name, reads) = net.gate(n as usize);
    if is_and(name) {
        mark_all(marks, reads);
        return;
    }
    mark_all(marks, &[n]);
}

/// Marks what an or needs of the nodes that it reads.
fn mark_terms(net: &Net, numbers: &[u32], marks: &mut Vec<bool>)
    requires nodes { All (λ n. n < length (gates_of net.now)) numbers.now }
    requires count { length marks.old.items ≡ length (gates_of net.now) }
    ensures count { length marks.new.items ≡ length marks.old.items }
    ensures marked { TermsMarked (gates_of net.now) marks.new.items numbers.now }
    ensures more { (n : ℕ) → is_marked marks.old.items n ≡ true → is_marked marks.new.items n ≡ true }
    ensures above { (n m : ℕ) → All (λ k. k < n) numbers.now → n ≤ m → is_marked marks.new.items m ≡ is_marked marks.old.items m }
{
    for number in numbers {
        mark_term(net, *number, marks);
    }
}

/// Marks what a node needs, if it is marked itself.
fn close(net: &Net, n: usize, marks: &mut Vec<bool>)
    requires node { n < length (gates_of net.now) }
    requires closed { IsClosedFrom (gates_of net.now) (n + 1) marks.old.items }
    ensures closed { IsClosedFrom (gates_of net.now) n marks.new.items }
    ensures more { (m : ℕ) → is_marked marks.old.items m ≡ true → is_marked marks.new.items m ≡ true }
{
    if !marks[n] {
        return;
    }
    let (name, reads) = net.gate(n);
    if is_or(name) {
        mark_terms(net, reads, marks);
        return;
    }
    mark_all(marks, reads);
}

/// A mark for each kept node and for each that these need.
pub(crate) fn cones(alloc: Global, net: &Net, kept: &[u32]) -> Result<Vec<bool>, AllocError>
    requires { All (λ n. n < length (gates_of net.now)) kept.now }
    ensures closed { IfOk result (λ marks. IsClosedFrom (gates_of net.now) 0 marks.items) }
    ensures kept { IfOk result (λ marks. AllMarked marks.items kept.now) }
{
    let mut marks = vec![in alloc; false; net.nodes()]?;
    mark_all(&mut marks, kept);
    let mut n = net.nodes();
    while n > 0 {
        n -= 1;
        close(net, n, &mut marks);
    }
    Ok(marks)
}
