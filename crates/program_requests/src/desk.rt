//! What is kept from one request to the next, and what is taken of the input.
ghost use Rattle.std.specs.Prelude.{◌≡◌, ◌≤◌, ◌<◌, ℕ, List, [], true, false, Option, IfOk, MatchOption, length, min};
ghost use Rattle.statement.specs.Input.{read_limit};
ghost use Rattle.std.specs.Io.KnownBytes.{Consumes};
ghost use Rattle.program_requests.specs.Feeds.{HasFront};
ghost use Rattle.program_requests.specs.Lines.{line_limit, AsksForRules, AsksForNoRules};
ghost use Rattle.program_requests.specs.Desks.{IsDesk, AreRulesTaken, IsTaken, goes_on, last_taken, rules_kept, to_come};

use crate::fault::ReadFault;
use crate::feed::Feed;
use crate::gathered::Gathered;
use crate::lines::{LineEnd, next_line};
use crate::sizes::rules_size;
use crate::texts::take_text;
use kif::TEXT_LIMIT;
use std::alloc::{AllocError, Global};
use std::io::Read;

/// How many bytes a line may have: 65,536, and those of a history.
const LINE_LIMIT: usize = 1_114_112;

/// How many bytes of rules are kept at most: one more than a text may have, so that a longer one shows.
const READ_LIMIT: usize = TEXT_LIMIT + 1;

/// What is taken of the input.
#[derive(Clone, Copy, Debug, PartialEq, Eq)]
pub enum Taken {
    /// A line that asks for no rules.
    Line,
    /// A line that asks for rules, and these, which stand now.
    Rules,
    /// The same, but there was no memory for the rules, and none stand.
    Starved,
    /// A line without its line feed, with which the input ends.
    LastLine,
    /// A line that asks for more rules than the input has.
    Cut,
    /// Nothing, since the input has ended.
    Nothing,
}

impl Taken {
    /// Whether there may be more to take.
    pub fn goes_on(self) -> bool
        ensures { result ≡ goes_on self }
    {
        match self {
            Taken::Line | Taken::Rules | Taken::Starved => true,
            Taken::LastLine | Taken::Cut | Taken::Nothing => false,
        }
    }
}

/// What a session keeps.
#[derive(Drop)]
pub struct Desk {
    feed: Feed,
    line: Gathered,
    rules: Vec<u8>,
}

/// Whether a line is longer than it may be.
fn is_long(line: &Gathered) -> bool
    requires { line.now.filled ≤ length line.now.room.items }
    ensures yes { result ≡ true → line_limit < line.now.filled }
    ensures no { result ≡ false → line.now.filled ≤ line_limit }
{
    line.bytes().len() > LINE_LIMIT
}

/// What is taken with the line that the input ends with.
fn last_taken(asked: Option<usize>, is_empty: bool) -> Taken
    ensures { result ≡ last_taken asked is_empty }
{
    match asked {
        Some(_) => Taken::Cut,
        None => {
            if is_empty {
                Taken::Nothing
            } else {
                Taken::LastLine
            }
        }
    }
}

impl Desk {
    /// A desk on which no rules stand. Nothing else is kept but the rules, so a line never wants for memory.
    pub fn new(alloc: Global) -> Result<Desk, AllocError>
        ensures desk { IfOk result IsDesk }
        ensures none { IfOk result (λ d. rules_kept d ≡ []) }
        ensures fresh { IfOk result (λ d. (remaining : Option (List ℕ)) → Consumes remaining (to_come d remaining) []) }
    {
        let feed = Feed::new(alloc)?;
        let line = Gathered::new(alloc, LINE_LIMIT + 1)?;
        let rules = Vec::new(alloc);
        Ok(Desk { feed, line, rules })
    }

    /// How many bytes of rules the line asks for, if it does and is not too long.
    fn size_asked(&self) -> Option<usize>
        requires { IsDesk self.now }
        ensures { (line : List ℕ) → HasFront self.now.line line → MatchOption result (length line ≤ line_limit → AsksForNoRules line)
            (λ n. (length line ≤ line_limit) × AsksForRules line n) }
    {
        if is_long(&self.line) {
            return None;
        }
        rules_size(self.line.bytes())
    }

    /// Takes rules into a room for as many of them as are kept.
    fn take_kept<R: Read>(
        &mut self,
        input: &mut R,
        text: Gathered,
        size: usize,
    ) -> Result<Taken, ReadFault>
        requires desk { IsDesk self.old }
        requires none { HasFront text [] }
        requires room { length text.room.items ≡ min size read_limit }
        ensures desk { IsDesk self.new }
        ensures taken { AreRulesTaken size result self.new (to_come self.old (R.remaining input.old)) (to_come self.new (R.remaining input.new)) }
    {
        let mut text = text;
        if !take_text(&mut self.feed, input, &mut text, size)? {
            return Ok(Taken::Cut);
        }
        self.rules = text.into_bytes();
        Ok(Taken::Rules)
    }

    /// Takes rules for which there is no memory.
    fn pass_over<R: Read>(
        &mut self,
        input: &mut R,
        nothing: Gathered,
        size: usize,
    ) -> Result<Taken, ReadFault>
        requires desk { IsDesk self.old }
        requires none { HasFront nothing [] }
        requires rules { self.old.rules.items ≡ [] }
        ensures desk { IsDesk self.new }
        ensures taken { AreRulesTaken size result self.new (to_come self.old (R.remaining input.old)) (to_come self.new (R.remaining input.new)) }
    {
        let mut nothing = nothing;
        if !take_text(&mut self.feed, input, &mut nothing, size)? {
            return Ok(Taken::Cut);
        }
        Ok(Taken::Starved)
    }

    /// Takes rules of so many bytes, which stand then. Those before them are given back first.
    fn take_rules<R: Read>(
        &mut self,
        alloc: Global,
        input: &mut R,
        size: usize,
    ) -> Result<Taken, ReadFault>
        requires { IsDesk self.old }
        ensures desk { IsDesk self.new }
        ensures taken { AreRulesTaken size result self.new (to_come self.old (R.remaining input.old)) (to_come self.new (R.remaining input.new)) }
    {
        self.rules = Vec::new(alloc);
        match Gathered::new(alloc, size.min(READ_LIMIT)) {
            Ok(text) => self.take_kept(input, text, size),
            Err(AllocError) => self.pass_over(input, Gathered::none(alloc), size),
        }
    }

    /// Takes the next request.
    pub fn take<R: Read>(&mut self, alloc: Global, input: &mut R) -> Result<Taken, ReadFault>
        requires { IsDesk self.old }
        ensures desk { IsDesk self.new }
        ensures taken { IsTaken result self.old self.new (to_come self.old (R.remaining input.old)) (to_come self.new (R.remaining input.new)) }
    {
        let end = next_line(&mut self.feed, input, &mut self.line)?;
        let asked = self.size_asked();
        match end {
            LineEnd::Fed => match asked {
                Some(size) => self.take_rules(alloc, input, size),
                None => Ok(Taken::Line),
            },
            LineEnd::Cut => Ok(last_taken(asked, self.line.is_empty())),
        }
    }

    /// The line that was taken, or none where it is longer than it may be.
    pub fn line(&self) -> Option<&[u8]>
        requires { IsDesk self.now }
        ensures { (line : List ℕ) → HasFront self.now.line line → MatchOption result (line_limit < length line)
            (λ bytes. (length line ≤ line_limit) × (bytes.now ≡ line)) }
    {
        if is_long(&self.line) {
            return None;
        }
        Some(self.line.bytes())
    }

    /// The rules that stand, as many bytes of them as a run reads.
    pub fn rules(&self) -> &[u8]
        ensures { result.now ≡ rules_kept self.now }
    {
        &self.rules
    }
}
