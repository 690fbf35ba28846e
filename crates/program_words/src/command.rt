//! What is asked of rules.
use search_split::Cut;
use statement::{AtBound, Width, Window};

/// What the program does with the rules that it reads.
#[derive(Clone, Copy, Debug, PartialEq, Eq)]
pub enum Command<'a> {
    /// Writes the canonical text of each tree, one a line.
    Show,
    /// Names the first fault of the description, or counts what it has.
    Check,
    /// Asks the instantiation of the rules by the limits of a width, and names a fault of theirs or a limit that they pass first.
    Ask(Inquiry<'a>, Width),
}

/// In which language the rules on the input are.
#[derive(Clone, Copy, Debug, PartialEq, Eq)]
pub enum Language {
    /// The profile, which every command takes as it stands: no relation rests on itself, and `base` and `input` are stated.
    Profile,
    /// The whole language, in which rules are found. They are written out first.
    Whole,
    /// The same, and no base propositions and inputs are stated but those that play can come to.
    Tightened,
}

/// What is asked of the instantiation of rules.
#[derive(Clone, Copy, Debug, PartialEq, Eq)]
pub enum Inquiry<'a> {
    /// Counts the base propositions, the inputs, the kept instances, the heads without effect on play, and the nodes of the network.
    Net,
    /// Tells how play stands after a history: the goal of each role where the game has ended, else the
    /// legal moves of each role.
    Moves {
        /// The text of the history, whose trees are its turns. It is empty for the start of the game.
        after: &'a str,
    },
    /// Tells how play stands after a history, and which base propositions hold.
    State {
        /// The text of the history, as of `Moves`.
        after: &'a str,
    },
    /// Tells what a role can be sure of after a history, the move that makes sure of it, and the line of play.
    Solve(Sought<'a>),
    /// Tells the same where that is between two bounds, and else which of the bounds it does not pass. The cut is of no account.
    SolveWithin(Sought<'a>, Window),
    /// Tells of each legal move of a role after a history what it makes sure of. The cut is of no account.
    Values(Sought<'a>),
    /// Tells the same, and behind each move the line of play that begins with it. The cut is of no account.
    ValuesWithLines(Sought<'a>),
    /// Tells what `Solve` does, within one turn, two turns and so on, until no further turn can change the value. The cut is of no
    /// account.
    Deepen(Sought<'a>),
}

/// The best play that is sought.
#[derive(Clone, Copy, Debug, PartialEq, Eq)]
pub struct Sought<'a> {
    /// The text of the role.
    pub role: &'a str,
    /// How many turns are looked ahead.
    pub depth: u32,
    /// What a state in which play goes on is worth where these turns are over.
    pub at_bound: AtBound,
    /// How many threads search, and the parts of what. The reply does not depend on it.
    pub cut: Cut,
    /// How many MiB a search may take to keep what states are worth. The reply does not depend on it.
    pub table: u32,
    /// The text of the history, as of `Moves`.
    pub after: &'a str,
}
