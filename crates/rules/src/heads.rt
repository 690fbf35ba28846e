//! Which relations head an alternative, and which of those rest on anything, by number.
ghost use Rattle.std.specs.Prelude.{◌≡◌, ◌<◌, All, IfOk, length, replicate, vec_len, false, true, slice_set, if◌then◌else◌};
ghost use Rattle.rules.specs.Heads.{with_marked_heads, with_passing};
ghost use Rattle.rules.specs.ItemLinks.{LinksWithin};

use crate::item_links::Links;
use rules_clauses::SharedAlternative;
use std::alloc::{AllocError, Global};

/// Marks the heads of alternatives.
pub(crate) fn heads_of(
    alloc: Global,
    nodes: usize,
    alternatives: &[SharedAlternative],
) -> Result<Vec<bool>, AllocError>
    requires { All (λ a. a.head.relation < nodes) alternatives.now }
    ensures { IfOk result (λ marks. marks.items ≡ with_marked_heads (replicate nodes false) alternatives.now) }
{
    let mut marks = vec![in alloc; false; nodes]?;
    for alternative in alternatives {
        marks[alternative.head.relation] = true;
    }
    Ok(marks)
}

/// Marks a node if a test is passed.
fn mark_if(marks: &mut Vec<bool>, node: usize, is_passed: bool)
    requires { node < vec_len marks.old }
    ensures { marks.new.items ≡ (if is_passed then slice_set marks.old.items node true else marks.old.items) }
{
    if is_passed {
        marks[node] = true;
    }
}

/// Marks the heads of the items that pass a test.
pub(crate) fn passing_heads_of(
    alloc: Global,
    nodes: usize,
    links: &[Links],
    tests: &[bool],
) -> Result<Vec<bool>, AllocError>
    requires links { All (LinksWithin nodes) links.now }
    requires tests { length tests.now ≡ length links.now }
    ensures { IfOk result (λ marks. marks.items ≡ with_passing (replicate nodes false) links.now tests.now) }
{
    let mut marks = vec![in alloc; false; nodes]?;
    for (index, link) in links.iter().enumerate() {
        mark_if(&mut marks, link.head, tests[index]);
    }
    Ok(marks)
}
