//! What a description should have to be a game, as its instantiation tells it.
ghost use Rattle.std.specs.Prelude.{◌≡◌, ◌<◌, ℕ, true, false, length, IfOk, IfSome};
ghost use Rattle.ground_instances.specs.Grounds.{texts_at};
ghost use Rattle.ground_instances.specs.GroundView.{inputs_of, roles_of};
ghost use Rattle.program_run.specs.Sizes.{AreSizesOf};

use ground::GroundFault;
use ground_instances::FlatGround;

/// Whether an instantiation has base propositions and inputs, and how many heads without effect.
#[derive(Clone, Copy, Debug)]
pub struct Sizes {
    pub has_base: bool,
    pub has_inputs: bool,
    pub dropped: usize,
}

/// Whether some role has an input.
fn has_inputs(made: &FlatGround) -> bool
    ensures none { result ≡ false → (r : ℕ) → r < length (roles_of made.now) → length (texts_at (inputs_of made.now) r) ≡ 0 }
    ensures some { result ≡ true → (r : ℕ) × (r < length (roles_of made.now)) × (0 < length (texts_at (inputs_of made.now) r)) }
{
    for role in 0..made.roles() {
        if made.inputs(role) > 0 {
            return true;
        }
    }
    false
}

/// What an instantiation has, if there is one.
pub(crate) fn sizes_of(instantiated: &Result<FlatGround, GroundFault>) -> Option<Sizes>
    ensures { IfOk instantiated.now (λ made. IfSome result (AreSizesOf made)) }
{
    let Ok(made) = instantiated else {
        return None;
    };
    Some(Sizes {
        has_base: made.base() > 0,
        has_inputs: has_inputs(made),
        dropped: made.dropped(),
    })
}
