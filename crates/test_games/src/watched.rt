//! A game whose play is watched, for tests.
use game::{Game, Joint, Told};
use std::alloc::AllocError;
use std::sync::atomic::{AtomicUsize, Ordering};

/// What is told of play while it goes on.
pub trait Watch: Sync {
    /// A joint move is about to be played, by itself or beside others.
    fn stepped(&self, joint: &Joint);

    /// A state is about to be given: that of a step, or one out of many.
    fn gave(&self);
}

/// Counts the states that are given.
impl Watch for AtomicUsize {
    fn stepped(&self, _joint: &Joint) {}

    fn gave(&self) {
        self.fetch_add(1, Ordering::SeqCst);
    }
}

/// A game that tells of its play. It judges nothing and tells nothing of many states, so that each state that is looked at is given.
#[derive(Drop)]
pub struct Watched<G, W> {
    pub inner: G,
    pub watch: W,
}

impl<G: Game, W: Watch> Game for Watched<G, W> {
    type Pos = G::Pos;

    type Wide = G::Wide;

    type Many = G::Many;

    ghost rules = { λ g. G.rules g.inner };

    ghost role_name = { λ g. G.role_name g.inner };

    ghost move_name = { λ g. G.move_name g.inner };

    ghost fits = { λ g. G.fits g.inner };

    ghost state = { λ g. G.state g.inner };

    ghost capacities = { λ g. G.capacities g.inner };

    ghost fits_wide = { λ g. G.fits_wide g.inner };

    ghost judged = { λ g. G.judged g.inner };

    ghost fits_many = { λ g. G.fits_many g.inner };

    ghost states = { λ g. G.states g.inner };

    ghost wide_capacities = { λ g. G.wide_capacities g.inner };

    ghost many_capacities = { λ g. G.many_capacities g.inner };

    ghost key_length = { λ g. G.key_length g.inner };

    ghost keyed = { λ g. G.keyed g.inner };

    fn roles(&self) -> usize {
        self.inner.roles()
    }

    fn role_text(&self, role: usize) -> &[u8] {
        self.inner.role_text(role)
    }

    fn moves(&self, role: usize) -> usize {
        self.inner.moves(role)
    }

    fn move_text(&self, role: usize, number: u32) -> &[u8] {
        self.inner.move_text(role, number)
    }

    fn fresh(&self) -> Result<G::Pos, AllocError> {
        self.inner.fresh()
    }

    fn ended(&self, p: &G::Pos) -> bool {
        self.inner.ended(p)
    }

    fn goal(&self, p: &G::Pos, role: usize) -> u8 {
        self.inner.goal(p, role)
    }

    fn legal(&self, p: &G::Pos, role: usize, place: usize) -> Option<u32> {
        self.inner.legal(p, role, place)
    }

    fn step(&self, p: &G::Pos, joint: &Joint, q: &mut G::Pos) {
        self.watch.stepped(joint);
        self.watch.gave();
        self.inner.step(p, joint, q);
    }

    fn copy(&self, p: &G::Pos, q: &mut G::Pos) {
        self.inner.copy(p, q);
    }

    fn new_wide(&self) -> Result<G::Wide, AllocError> {
        self.inner.new_wide()
    }

    fn new_many(&self) -> Result<G::Many, AllocError> {
        self.inner.new_many()
    }

    fn steps(&self, p: &G::Pos, joints: &[Joint], w: &mut G::Wide, out: &mut G::Many) {
        for joint in joints {
            self.watch.stepped(joint);
        }
        self.inner.steps(p, joints, w, out);
    }

    fn abreast(&self) -> usize {
        self.inner.abreast()
    }

    fn take(&self, many: &G::Many, place: usize, q: &mut G::Pos) {
        self.watch.gave();
        self.inner.take(many, place, q);
    }

    fn told(&self, _many: &G::Many, _place: usize, _role: usize) -> Told {
        Told::Nothing
    }

    fn judge(&self, _p: &G::Pos, _joints: &[Joint], _w: &mut G::Wide) -> bool {
        false
    }

    fn judge_from(
        &self,
        _many: &G::Many,
        _places: &[usize],
        _joints: &[Joint],
        _w: &mut G::Wide,
    ) -> bool {
        false
    }

    fn verdict(&self, w: &G::Wide, place: usize, role: usize) -> Option<u8> {
        self.inner.verdict(w, place, role)
    }

    fn key_words(&self) -> usize {
        self.inner.key_words()
    }

    fn write_key(&self, p: &G::Pos, key: &mut [u64]) {
        self.inner.write_key(p, key);
    }

    fn write_key_of(&self, many: &G::Many, place: usize, key: &mut [u64]) {
        self.inner.write_key_of(many, place, key);
    }

    fn write_keys(&self, many: &G::Many, count: usize, keys: &mut [u64]) {
        self.inner.write_keys(many, count, keys);
    }

    ghost goal_within = { λ g. G.goal_within g.inner };

    ghost moves_within = { λ g. G.moves_within g.inner };

    ghost legal_within = { λ g. G.legal_within g.inner };

    ghost legal_ascending = { λ g. G.legal_ascending g.inner };

    ghost moves_in_printed_order = { λ g. G.moves_in_printed_order g.inner };

    ghost role_names_differ = { λ g. G.role_names_differ g.inner };
}
