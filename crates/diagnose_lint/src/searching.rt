//! The search for heads without effect, by sets. No clause says anything of it: who takes what it finds tests it.
use crate::dropped_finding::Lack;
use crate::effects::key_of;
use crate::goals::{has_open_goal, is_goal_number};
use ground_instances::AlternativeRun;
use ground_listing::{ContextTerms, Listed};
use ground_terms::{Named, NumberSet, count_dropped};
use indexmap::IndexSet;
use kif::Expr;
use rules::RuleSet;
use rules_profile::Word;
use rules_relations::{Relation, is_stated};
use std::alloc::{AllocError, Allocator, Global};

/// An instance of an item whose head may be without effect, and how many more different ones of the item may be.
#[derive(Clone, Copy)]
pub(crate) struct Candidate {
    /// The place of the item in the list.
    pub(crate) place: usize,
    /// The place of the instance among the kept ones.
    pub(crate) index: usize,
    pub(crate) more: usize,
}

/// The terms that are base propositions, roles, and the inputs of each role.
#[derive(Drop)]
struct Tables {
    base: NumberSet,
    roles: NumberSet,
    inputs: Vec<NumberSet>,
}

/// The terms that are named.
fn set_of(alloc: Global, named: &[Named]) -> Result<NumberSet, AllocError> {
    let mut set = NumberSet::new(alloc);
    for one in named {
        set.insert(one.term)?;
    }
    Ok(set)
}

/// The base propositions, the roles and the inputs of a context of play.
fn tables_of(alloc: Global, context: &ContextTerms) -> Result<Tables, AllocError> {
    let base = set_of(alloc, &context.base)?;
    let roles = set_of(alloc, &context.roles)?;
    let mut inputs = Vec::new(alloc);
    for named in &context.inputs {
        inputs.push(set_of(alloc, named)?)?;
    }
    Ok(Tables {
        base,
        roles,
        inputs,
    })
}

/// What heads are looked at by.
#[derive(Drop)]
struct Looked<'a> {
    rules: &'a RuleSet,
    listed: &'a Listed,
    tables: Tables,
}

/// Whether the atom of a number is an `init`, a `next` or a `legal` without effect.
fn is_dropped(looked: &Looked, atom: u32) -> bool {
    let tables = &looked.tables;
    if atom as usize >= looked.listed.arena.len() || tables.inputs.len() != tables.roles.len() {
        return false;
    }
    count_dropped(
        &looked.listed.arena,
        looked.rules.keywords(),
        &tables.base,
        &tables.roles,
        &tables.inputs,
        &[atom],
    ) > 0
}

/// The name that a term is, if it is one.
fn name_of<'a>(looked: &Looked<'a>, number: usize) -> &'a [u8] {
    match key_of(&looked.listed.arena, number) {
        [symbol] => {
            let symbol = *symbol as usize;
            if symbol < looked.rules.count_symbols() {
                return looked.rules.symbol(symbol);
            }
            b""
        }
        _ => b"",
    }
}

/// Whether a key is that of a `goal` of no role, or whose value is no number.
fn lacks_goal(looked: &Looked, key: &[u32]) -> bool {
    match key {
        [word, role, value] => {
            *word as usize == looked.rules.keywords().goal
                && (!looked.tables.roles.contains(*role as usize)
                    || !is_goal_number(name_of(looked, *value as usize)))
        }
        _ => false,
    }
}

/// What the atom of a number lacks to have an effect on play, if it lacks something.
fn lack_of(looked: &Looked, atom: u32) -> Option<Lack> {
    let key = key_of(&looked.listed.arena, atom as usize);
    if lacks_goal(looked, key) {
        return Some(Lack::Goal);
    }
    if !is_dropped(looked, atom) {
        return None;
    }
    if key.len() == 2 {
        return Some(Lack::Base);
    }
    Some(Lack::Input)
}

/// Whether items state anything of a word.
fn state<A: Allocator>(items: &[Expr<A>], word: Word) -> bool {
    let relation = Relation {
        word: word.name(),
        arity: word.arity(),
    };
    is_stated(items, &relation)
}

/// Of which lacks heads are told. Where no item states `base`, or `input`, that is found by itself, and no head is told for it.
#[derive(Clone, Copy)]
struct Wanted {
    base: bool,
    input: bool,
}

/// Whether a lack of an item is told: a goal whose value stands in the item itself is found by itself.
fn is_told<A: Allocator>(items: &[Expr<A>], wanted: Wanted, place: usize, lack: Lack) -> bool {
    let Some(item) = items.get(place) else {
        return false;
    };
    match lack {
        Lack::Base => wanted.base,
        Lack::Input => wanted.input,
        Lack::Goal => has_open_goal(item),
    }
}

/// The alternative of each kept instance in turn, by the runs of the list.
#[derive(Clone, Copy)]
struct Runs<'a> {
    left: &'a [AlternativeRun],
}

impl Runs<'_> {
    /// The alternative of an instance, where all before it were asked for.
    fn at(&mut self, place: usize) -> Option<usize> {
        for _ in 0..self.left.len() {
            let Some((_, rest)) = self.left.split_first() else {
                break;
            };
            match rest.first() {
                Some(next) if next.first as usize <= place => self.left = rest,
                _ => break,
            }
        }
        let first = self.left.first()?;
        Some(first.alternative as usize)
    }
}

/// The place of the item of an alternative, or none that there is.
fn owner_of(owners: &[usize], alternative: Option<usize>) -> usize {
    let Some(alternative) = alternative else {
        return usize::MAX;
    };
    match owners.get(alternative) {
        Some(place) => *place,
        None => usize::MAX,
    }
}

/// Notes that the head of an instance of an item may be without effect.
fn note(slots: &mut [Option<Candidate>], place: usize, index: usize) {
    let Some(slot) = slots.get_mut(place) else {
        return;
    };
    let more = match slot {
        Some(known) => known.more.saturating_add(1),
        None => 0,
    };
    let index = match slot {
        Some(known) => known.index,
        None => index,
    };
    *slot = Some(Candidate { place, index, more });
}

/// For each item an instance whose head may be without effect, if there is one.
fn slots_of<A: Allocator>(
    alloc: Global,
    items: &[Expr<A>],
    looked: &Looked,
    owners: &[usize],
) -> Result<Vec<Option<Candidate>>, AllocError> {
    let mut slots = vec![in alloc; None; items.len()]?;
    let mut runs = Runs {
        left: &looked.listed.found.runs,
    };
    let wanted = Wanted {
        base: state(items, Word::Base),
        input: state(items, Word::Input),
    };
    let mut seen: IndexSet<(usize, u32)> = IndexSet::new(alloc);
    for (index, entry) in looked.listed.found.entries.iter().enumerate() {
        let place = owner_of(owners, runs.at(index));
        if let Some(lack) = lack_of(looked, entry.head) {
            if is_told(items, wanted, place, lack) && seen.insert((place, entry.head))? {
                note(&mut slots, place, index);
            }
        }
    }
    Ok(slots)
}

/// The instances whose heads may be without effect, of each item the first, in the order of the items.
pub(crate) fn candidates<A: Allocator>(
    alloc: Global,
    items: &[Expr<A>],
    rules: &RuleSet,
    listed: &Listed,
    owners: &[usize],
) -> Result<Vec<Candidate>, AllocError> {
    let looked = Looked {
        rules,
        listed,
        tables: tables_of(alloc, &listed.context)?,
    };
    let slots = slots_of(alloc, items, &looked, owners)?;
    let mut found = Vec::new(alloc);
    for slot in &slots {
        if let Some(candidate) = slot {
            found.push(*candidate)?;
        }
    }
    Ok(found)
}
