//! Texts that say what they are about.
ghost use Rattle.std.specs.Prelude.{◌≡◌, ◌↔◌, IsTrue, IfOk, take, codes};
ghost use Rattle.diagnose_refusals.specs.Headed.{IsHeaded};

use std::alloc::{AllocError, Global};

/// Whether a text begins with the name of the input.
fn names_input(text: &[u8]) -> bool
    ensures { IsTrue result ↔ (take 7 text.now ≡ codes "<input>") }
{
    matches!(text, [b'<', b'i', b'n', b'p', b'u', b't', b'>', ..])
}

/// Whether a text begins as the name of an option does.
fn names_option(text: &[u8]) -> bool
    ensures { IsTrue result ↔ (take 2 text.now ≡ codes "--") }
{
    matches!(text, [b'-', b'-', ..])
}

/// What is told of a refusal where there is nothing else to tell.
fn plain(alloc: Global) -> Result<Vec<u8>, AllocError>
    ensures { IfOk result (λ text. text.items ≡ codes "<input>: refused\n") }
{
    let mut text = Vec::new(alloc);
    text.extend_from_slice(b"<input>: refused\n")?;
    Ok(text)
}

/// A text that says what it is about: this one, if it does.
pub(crate) fn headed(alloc: Global, text: Vec<u8>) -> Result<Vec<u8>, AllocError>
    ensures { IfOk result (λ text. IsHeaded text.items) }
{
    if names_input(&text) {
        return Ok(text);
    }
    if names_option(&text) {
        return Ok(text);
    }
    plain(alloc)
}
