//! Marks of the alternatives that head relations of a set.
ghost use Rattle.std.specs.Prelude.{◌≡◌, ◌<◌, length, map, get_or, IfOk};
ghost use Rattle.statement.specs.Clause as said;
ghost use Rattle.statement.specs.Clause.{relation_of};
ghost use Rattle.rules_relations.specs.Relations.{relation_in};
ghost use Rattle.rules.specs.RuleSetView.{alternatives_in, rules_in};
ghost use Rattle.unroll_layers.specs.ByNumber.{heads_one};

use rules::RuleSet;
use rules_relations::{Relation, RelationSet};
use std::alloc::{AllocError, Global};

/// The relation that the alternative at a place heads.
pub(crate) fn head_at<'a>(rules: &'a RuleSet, place: usize) -> Relation<'a>
    requires { place < length (alternatives_in rules.now) }
    ensures { (d : said.Alternative) → relation_in result ≡ relation_of (get_or (rules_in rules.now) place d).head }
{
    let signature = rules.relation(rules.alternatives()[place].head.relation);
    Relation {
        word: rules.symbol(signature.word),
        arity: signature.arity,
    }
}

/// For each alternative whether it heads one of these relations.
pub(crate) fn marks_of<'a>(
    alloc: Global,
    rules: &'a RuleSet,
    relations: &RelationSet<'a>,
) -> Result<Vec<bool>, AllocError>
    ensures { IfOk result (λ marks. marks.items ≡ map (heads_one relations.now) (rules_in rules.now)) }
{
    let many = rules.alternatives().len();
    let mut marks = Vec::with_capacity(alloc, many)?;
    for place in 0..many {
        marks.push(relations.contains(head_at(rules, place)))?;
    }
    Ok(marks)
}
