//! The program, once its words are read: what a request asks for is done.
ghost use Rattle.std.specs.Prelude.{◌≡◌, ◌≤◌};
ghost use Rattle.program_streams.specs.Streams.{streams};
ghost use Rattle.program_session.specs.Doing.{IsPerformed, bounds_for, found_bounds};

use crate::found::run_found;
use crate::session::serve;
use position::NetGame;
use program_run::{run_explained, run_lint, show_help, tell_misuse};
use program_unroll::run_unroll;
use program_words::{Language, Request};
use std::io::{Read, Write};
use std::thread::Threads;
use unroll::Bounds;

/// What is to be written of `base` and `input` for rules in a language, if they are to be written out.
fn bounds_of(language: Language) -> Option<Bounds>
    ensures { result ≡ found_bounds language }
{
    match language {
        Language::Profile => None,
        Language::Whole => Some(Bounds::AsStated),
        Language::Tightened => Some(Bounds::Tightened),
    }
}

/// What `unroll` writes of `base` and `input` for rules in a language.
fn bounds_to_write(language: Language) -> Bounds
    ensures { result ≡ bounds_for language }
{
    match language {
        Language::Profile | Language::Whole => Bounds::AsStated,
        Language::Tightened => Bounds::Tightened,
    }
}

/// Does what a request asks for, and answers the exit status: 0 for an answer, help or the version, 1 for words that are no command, 2 for a
/// refusal, 3 for want of memory, 4 where the input or the output failed.
///
/// A command is run, over rules as they are found by what is written for them; `lint` looks for findings, `unroll` writes a description out,
/// `serve` holds a session, and a text is told. What goes to the errors is for people, and a fault in writing it is passed over.
pub fn main_program<T: Threads + Sync + AllocGlobal, R: Read, W: Write, E: Write>(
    rt: &T,
    request: &Request,
    input: &mut R,
    output: &mut W,
    errors: &mut E,
) -> u8
    ensures done { IsPerformed request.now result
        (streams (R.remaining input.old) (W.contents output.old) (E.contents errors.old))
        (streams (R.remaining input.new) (W.contents output.new) (E.contents errors.new)) }
    ensures statuses { result ≤ 4 }
{
    match request {
        Request::Run(command, language) => match bounds_of(*language) {
            Some(bounds) => run_found(rt, command, input, output, errors, bounds),
            None => run_explained(rt, command, input, output, errors),
        },
        Request::Lint => run_lint(rt, input, output, errors),
        Request::Unroll(language) => {
            run_unroll(rt, input, output, errors, bounds_to_write(*language))
        }
        Request::Serve(language) => {
            serve::<NetGame, T, R, W, E>(rt, *language, input, output, errors)
        }
        Request::Help(text) => show_help(text, output, errors),
        Request::Misuse(text) => tell_misuse(text, errors),
    }
}
