//! From bytes to their rules, or to a reply that needs no more than reading.
ghost use Rattle.std.specs.Prelude.{◌≡◌, ◌++◌, IfOk, OnOk};
ghost use Rattle.kif.specs.View.{trees_in};
ghost use Rattle.rules.specs.RuleSets.{texts_of};
ghost use Rattle.statement.specs.Checking.{spaced, check_lines, IsCheckReply};
ghost use Rattle.program_replies.specs.Readings.{IsReadingOf, IsReadingOfItems};
ghost use Rattle.program_searches.specs.Replies.{reply_of};
ghost use Rattle.statement.specs.Replies.{IsReply};
ghost use Rattle.statement.specs.Queries as query;

use bumpalo::Bump;
use kif::{Expr, KifFault, canonical_lines};
use program_searches::{Reply, add_count, answered, refused};
use rules::{Counts, RuleFault, RuleSet, count_rules};
use std::alloc::{AllocError, Allocator, Global};

/// What bytes are as a description.
#[derive(Drop)]
pub enum Reading {
    /// Their rules, which have no fault.
    Rules(RuleSet),
    /// The text, or the items that it reads as, have a fault, and the reply names it.
    Refused(Reply),
}

/// Adds each role with a space before it. After an error the output may have a beginning of them.
fn add_roles(roles: &[Vec<u8>], output: &mut Vec<u8>) -> Result<(), AllocError>
    ensures { OnOk result (output.new.items ≡ output.old.items ++ spaced (texts_of roles.now)) }
{
    for role in roles {
        output.push(b' ')?;
        output.extend_from_slice(role)?;
    }
    Ok(())
}

/// How many items, alternatives and relations there are, each on a line, and a line of the roles.
fn counted(alloc: Global, items: usize, counts: &Counts) -> Result<Vec<u8>, AllocError>
    ensures { IfOk result (λ output. output.items ≡ check_lines items counts.now.alternatives counts.now.relations (texts_of counts.now.roles.items)) }
{
    let mut output = Vec::new(alloc);
    add_count("items", items, &mut output)?;
    add_count("alternatives", counts.alternatives, &mut output)?;
    add_count("relations", counts.relations, &mut output)?;
    output.extend_from_slice(b"roles")?;
    add_roles(&counts.roles, &mut output)?;
    output.push(b'\n')?;
    Ok(output)
}

/// The reply to items as a description: the line that names their fault, or what they have.
fn checked<A: Allocator>(alloc: Global, items: &[Expr<A>]) -> Result<Reply, AllocError>
    ensures { IfOk result (λ reply. IsCheckReply (trees_in items.now) (reply_of reply)) }
{
    match count_rules(alloc, items) {
        Ok(counts) => Ok(answered(counted(alloc, items.len(), &counts)?)),
        Err(RuleFault::NoMemory) => Err(AllocError),
        Err(fault) => refused(alloc, &fault),
    }
}

/// The reply to `show` over the bytes of the input: the canonical text of each tree, one a line, or the line that names the fault of the
/// text. It fails only for want of memory.
pub fn show(alloc: Global, bytes: &[u8]) -> Result<Reply, AllocError>
    ensures { IfOk result (λ reply. IsReply query.show bytes.now (reply_of reply)) }
{
    match canonical_lines(alloc, bytes) {
        Ok(lines) => Ok(answered(lines)),
        Err(KifFault::NoMemory) => Err(AllocError),
        Err(fault) => refused(alloc, &fault),
    }
}

/// The reply to `check` over the bytes of the input: what they have as a description, or the line that names the fault of the text or of
/// its items. It fails only for want of memory.
pub fn check(alloc: Global, bytes: &[u8]) -> Result<Reply, AllocError>
    ensures { IfOk result (λ reply. IsReply query.check bytes.now (reply_of reply)) }
{
    let arena = Bump::new(alloc);
    match kif::read(&arena, bytes) {
        Ok(trees) => checked(alloc, &trees),
        Err(KifFault::NoMemory) => Err(AllocError),
        Err(fault) => refused(alloc, &fault),
    }
}

/// The rules of items, or the line that names the fault of the items.
fn rules_of<A: Allocator>(alloc: Global, items: &[Expr<A>]) -> Result<Reading, AllocError>
    ensures { IfOk result (IsReadingOfItems (trees_in items.now)) }
{
    match RuleSet::check(alloc, items) {
        Ok(rules) => Ok(Reading::Rules(rules)),
        Err(RuleFault::NoMemory) => Err(AllocError),
        Err(fault) => Ok(Reading::Refused(refused(alloc, &fault)?)),
    }
}

/// The rules of the bytes of the input, or the line that names the fault of the text or of its items. The trees of the bytes stand in an
/// arena that is dropped with this call. It fails only for want of memory.
pub fn read(alloc: Global, bytes: &[u8]) -> Result<Reading, AllocError>
    ensures { IfOk result (IsReadingOf bytes.now) }
{
    let arena = Bump::new(alloc);
    match kif::read(&arena, bytes) {
        Ok(trees) => rules_of(alloc, &trees),
        Err(KifFault::NoMemory) => Err(AllocError),
        Err(fault) => Ok(Reading::Refused(refused(alloc, &fault)?)),
    }
}
