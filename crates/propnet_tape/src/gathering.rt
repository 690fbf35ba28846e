//! The literals of what nodes read.
ghost use Rattle.std.specs.Prelude.{ℕ, [], ◌≡◌, ◌<◌, ◌≤◌, length, map, All, OnOk, slice_index};
ghost use Rattle.propnet.specs.Nets.{gates_of};
ghost use Rattle.propnet_tape.specs.Terms.{terms_there, TermsWhole};
ghost use Rattle.propnet_tape.specs.Translating.{NodeTerms, IsTermAdded};

use crate::cones::is_and;
use crate::gates::Literal;
use crate::parts::Terms;
use propnet::Net;
use std::alloc::AllocError;

/// The literals of nodes, in order.
pub(crate) fn gather(
    queue: &mut Vec<Literal>,
    numbers: &[u32],
    literals: &[Literal],
) -> Result<(), AllocError>
    requires { All (λ n. n < length literals.now) numbers.now }
    ensures { OnOk result (queue.new.items ≡ map (λ n. slice_index literals.now n) numbers.now) }
{
    queue.clear();
    for number in numbers {
        queue.push(literals[*number as usize])?;
    }
    Ok(())
}

/// Adds what an or takes for a node: the literals of what it reads if it is an and gate, else its own.
fn add_term(net: &Net, n: u32, literals: &[Literal], terms: &mut Terms) -> Result<(), AllocError>
    requires node { n < length (gates_of net.now) }
    requires within { n < length literals.now }
    requires whole { TermsWhole terms.old }
    ensures whole { OnOk result (TermsWhole terms.new) }
    ensures term { OnOk result (IsTermAdded (gates_of net.now) literals.now n (terms_there terms.old) (terms_there terms.new)) }
{
    let (name, reads) = net.gate(n as usize);
    if is_and(name) {
        return terms.add(reads, literals);
    }
    terms.add(&[n], literals)
}

/// Adds what an or takes for each of the nodes that it reads.
pub(crate) fn add_terms(
    net: &Net,
    numbers: &[u32],
    literals: &[Literal],
    terms: &mut Terms,
) -> Result<(), AllocError>
    requires within { All (λ n. n < length literals.now) numbers.now }
    requires nodes { length literals.now ≤ length (gates_of net.now) }
    requires whole { TermsWhole terms.old }
    requires none { terms_there terms.old ≡ [] }
    ensures whole { OnOk result (TermsWhole terms.new) }
    ensures terms { OnOk result (NodeTerms (gates_of net.now) literals.now numbers.now (terms_there terms.new)) }
{
    for number in numbers {
        add_term(net, *number, literals, terms)?;
    }
    Ok(())
}
