//! What is kept of a network to play up to 64 joint moves at a time.

use propnet_tape::Tape;

/// Which atoms are asked of a state.
#[derive(Clone, Copy)]
pub enum Scope {
    /// Those that tell whether the game has ended, and the goals.
    EndAlone,
    /// The legal moves too.
    WithMoves,
}

/// Where the `goal` atoms of a role stand among those that are asked.
#[derive(Drop)]
pub struct RoleGoals {
    /// The place of each, with its value.
    pub(crate) goals: Vec<(u32, u8)>,
}

/// Where the `legal` atoms of a role stand among those that are asked.
#[derive(Drop)]
pub struct RoleLegals {
    /// The place of each, with the move that it names, ascending by move.
    pub(crate) legals: Vec<(u32, u32)>,
}

/// What is asked of a state, and where its words lie behind a pass.
#[derive(Drop)]
pub struct Probe {
    pub(crate) scope: Scope,
    /// It keeps the nodes that tell of the atoms that are asked, in order.
    pub(crate) tape: Tape,
    /// The places of those that end the game.
    pub(crate) ends: Vec<u32>,
    pub(crate) goals: Vec<RoleGoals>,
}

/// The tapes of play.
#[derive(Drop)]
pub struct LanePlan {
    /// It keeps the transition of each base proposition, in order.
    pub(crate) next: Tape,
    /// What play asks of a state that it goes on from.
    pub(crate) probe: Probe,
    pub(crate) legals: Vec<RoleLegals>,
    /// What is asked of a state that play does not go on from, where a tape of its own pays for that.
    pub(crate) end_probe: Option<Probe>,
}
