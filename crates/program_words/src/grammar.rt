//! The grammar of the words: the commands and their options, and the texts of their help.
use std::alloc::{AllocError, Global};

/// The version that `--version` tells.
const VERSION: &str = "0.1.0";

/// The name of the option for a file of rules.
pub(crate) const RULES: &str = "rules";

/// The name of the command for a session.
pub(crate) const SERVE: &str = "serve";

/// Whose words are read.
#[derive(Clone, Copy)]
pub(crate) enum Speaker {
    /// The words of the program, which may name a file of rules.
    Program,
    /// The words of one question to rules that stand.
    Question,
}

/// What stands below the help of the program.
const CLOSING: &str = "Exit status:
  0  an answer, or help
  1  words that are no command
  2  a refusal: one line that names the fault
  3  no memory
  4  the input or the output failed

Examples:
  gdlsolve check < game.kif
  gdlsolve check --rules game.kif
  gdlsolve moves --after \"((mark 1 1) noop)\" < game.kif
  gdlsolve solve --role xplayer --depth 9 < game.kif";

/// What stands below the help of `moves`.
const MOVES_EXAMPLE: &str = "Example:
  gdlsolve moves --after \"((mark 1 1) noop)\" < game.kif";

/// What stands below the help of `state`.
const STATE_EXAMPLE: &str = "Example:
  gdlsolve state --after \"((mark 1 1) noop)\" < game.kif";

/// What stands below the help of `values`.
const VALUES_EXAMPLE: &str = "Example:
  gdlsolve values --role oplayer --depth 8 --after \"((mark 1 1) noop)\" < game.kif";

/// What stands below the help of `solve`.
const SOLVE_EXAMPLE: &str = "Example:
  gdlsolve solve --role oplayer --depth 8 --after \"((mark 1 1) noop)\" < game.kif";

/// What an option takes.
#[derive(Clone, Copy)]
enum ValueKind {
    /// Nothing: it is given, or it is not.
    Nothing,
    /// A text.
    Text,
    /// A text that may begin with a hyphen.
    AnyText,
    /// A whole number from 0 to this one.
    UpTo(i64),
}

/// What has to be given beside an option, or may not be.
#[derive(Clone, Copy)]
enum Beside {
    /// Anything.
    Anything,
    /// The option has to be given itself.
    Itself,
    /// The option has to be given, or this one.
    ItselfOr(&'static str),
    /// This one has to be given with it.
    With(&'static str),
    /// This one may not be given with it.
    Without(&'static str),
}

/// An option of a command.
#[derive(Clone, Copy)]
struct Setting {
    name: &'static str,
    takes: ValueKind,
    /// What stands for its value in texts for people.
    value: &'static str,
    /// Its value where it is not given.
    default: Option<&'static str>,
    beside: Beside,
    help: &'static str,
}

/// A command.
#[derive(Clone, Copy)]
struct Verb {
    name: &'static str,
    about: &'static str,
    /// What stands below its help.
    example: &'static str,
    settings: &'static [Setting],
}

const AFTER: Setting = Setting {
    name: "after",
    takes: ValueKind::AnyText,
    value: "TEXT",
    default: None,
    beside: Beside::Anything,
    help: "The turns that were played, each a list of a move for each role",
};

const ROLE: Setting = Setting {
    name: "role",
    takes: ValueKind::AnyText,
    value: "ROLE",
    default: None,
    beside: Beside::Itself,
    help: "The role to find a move for",
};

const DEPTH: Setting = Setting {
    name: "depth",
    takes: ValueKind::UpTo(64),
    value: "TURNS",
    default: None,
    beside: Beside::Itself,
    help: "How many turns to look ahead, from 0 to 64",
};

const DEPTH_OR_ALL: Setting = Setting {
    name: "depth",
    takes: ValueKind::UpTo(64),
    value: "TURNS",
    default: None,
    beside: Beside::ItselfOr("deepen"),
    help: "How many turns to look ahead, from 0 to 64; with --deepen it may be left out, and is 64 then",
};

const AT_BOUND: Setting = Setting {
    name: "at-bound",
    takes: ValueKind::AnyText,
    value: "WORTH",
    default: Some("zero"),
    beside: Beside::Anything,
    help: "What a state is worth where these turns are over and play goes on: zero, or its goal",
};

const UNFINISHED: Setting = Setting {
    name: "unfinished",
    takes: ValueKind::UpTo(100),
    value: "NUMBER",
    default: None,
    beside: Beside::Without("at-bound"),
    help: "A worth for all these states, from 0 to 100, in place of --at-bound",
};

const WINDOW: Setting = Setting {
    name: "window",
    takes: ValueKind::AnyText,
    value: "LOW:HIGH",
    default: None,
    beside: Beside::Anything,
    help: "Tell the value only where it is between these numbers, from -1 to 101, else which it does not pass",
};

const DEEPEN: Setting = Setting {
    name: "deepen",
    takes: ValueKind::Nothing,
    value: "",
    default: None,
    beside: Beside::Without("window"),
    help: "Answer for one turn, then for two, and so on, until no further turn can change the value",
};

const LINES: Setting = Setting {
    name: "lines",
    takes: ValueKind::Nothing,
    value: "",
    default: None,
    beside: Beside::Anything,
    help: "Tell the line of play behind each move too",
};

const CUT: Setting = Setting {
    name: "cut",
    takes: ValueKind::AnyText,
    value: "LEVELS",
    default: Some("1"),
    beside: Beside::Anything,
    help: "How many threads search, and those behind each of their moves, as 4 or 4x2",
};

const TABLE: Setting = Setting {
    name: "table",
    takes: ValueKind::UpTo(65_536),
    value: "MIB",
    default: Some("64"),
    beside: Beside::Anything,
    help: "How much memory may keep what positions are worth, from 0 to 65536",
};

const FILE: Setting = Setting {
    name: RULES,
    takes: ValueKind::Text,
    value: "FILE",
    default: None,
    beside: Beside::Anything,
    help: "Read the rules in this file in place of standard input",
};

const WHOLE: Setting = Setting {
    name: "whole",
    takes: ValueKind::Nothing,
    value: "",
    default: None,
    beside: Beside::Anything,
    help: "Read a game as it is found, with recursion or without base and input, as unroll writes it out",
};

const TIGHTEN: Setting = Setting {
    name: "tighten",
    takes: ValueKind::Nothing,
    value: "",
    default: None,
    beside: Beside::With("whole"),
    help: "With --whole: state only the base propositions and inputs that play can come to",
};

const TIGHTEN_ALONE: Setting = Setting {
    name: "tighten",
    takes: ValueKind::Nothing,
    value: "",
    default: None,
    beside: Beside::Anything,
    help: "State only the base propositions and inputs that play can come to",
};

/// The commands, of which the last has its rules among its requests, and all others read them.
const VERBS: [Verb; 10] = [
    Verb {
        name: "show",
        about: "Write the canonical text of each tree, one a line",
        example: "",
        settings: &[],
    },
    Verb {
        name: "check",
        about: "Name the first fault of the rules, or count what they have",
        example: "",
        settings: &[WHOLE, TIGHTEN],
    },
    Verb {
        name: "lint",
        about: "Find what is lawful in the rules and most likely wrong, and write a line for each finding",
        example: "",
        settings: &[],
    },
    Verb {
        name: "unroll",
        about: "Write a game that is found with recursion, or without base and input, as rules that every command takes",
        example: "",
        settings: &[TIGHTEN_ALONE],
    },
    Verb {
        name: "net",
        about: "Count what the rules come to: propositions, inputs, instances, and nodes of their network",
        example: "",
        settings: &[WHOLE, TIGHTEN],
    },
    Verb {
        name: "moves",
        about: "Tell how play stands after a history, with the goals of an ended game or the legal moves",
        example: MOVES_EXAMPLE,
        settings: &[AFTER, WHOLE, TIGHTEN],
    },
    Verb {
        name: "state",
        about: "Tell how play stands after a history, and which base propositions hold",
        example: STATE_EXAMPLE,
        settings: &[AFTER, WHOLE, TIGHTEN],
    },
    Verb {
        name: "solve",
        about: "Tell what a role can be sure of after a history, the move that makes sure of it, and the line of play",
        example: SOLVE_EXAMPLE,
        settings: &[
            ROLE,
            DEPTH_OR_ALL,
            AT_BOUND,
            UNFINISHED,
            WINDOW,
            DEEPEN,
            CUT,
            TABLE,
            AFTER,
            WHOLE,
            TIGHTEN,
        ],
    },
    Verb {
        name: "values",
        about: "Tell of each legal move of a role after a history what it makes sure of",
        example: VALUES_EXAMPLE,
        settings: &[
            ROLE, DEPTH, AT_BOUND, UNFINISHED, LINES, CUT, TABLE, AFTER, WHOLE, TIGHTEN,
        ],
    },
    Verb {
        name: SERVE,
        about: "Answer many requests in one process, each by a frame with its status and size",
        example: "",
        settings: &[WHOLE, TIGHTEN],
    },
];

/// An option by what it takes.
fn taking<'a>(option: clap::Arg<'a>, setting: Setting) -> clap::Arg<'a> {
    match setting.takes {
        ValueKind::Nothing => option.action(clap::ArgAction::SetTrue),
        ValueKind::Text => option.value_name(setting.value),
        ValueKind::AnyText => option.value_name(setting.value).allow_hyphen_values(true),
        ValueKind::UpTo(most) => option
            .value_name(setting.value)
            .value_parser(clap::value_parser!(u32).range(0..=most)),
    }
}

/// The option of a setting.
fn option_of<'a>(alloc: Global, setting: Setting) -> Result<clap::Arg<'a>, AllocError> {
    let option = clap::Arg::new(alloc, setting.name)
        .long(setting.name)
        .help(setting.help);
    let option = taking(option, setting);
    let option = match setting.default {
        Some(value) => option.default_value(value),
        None => option,
    };
    match setting.beside {
        Beside::Anything => Ok(option),
        Beside::Itself => Ok(option.required(true)),
        Beside::ItselfOr(other) => option.required_unless_present(other),
        Beside::With(other) => option.requires_arg(other),
        Beside::Without(other) => option.conflicts_with(other),
    }
}

/// A command with its options. In the program it has the one for a file of rules; to a session that is told as its fault.
fn command_of<'a>(
    alloc: Global,
    speaker: Speaker,
    verb: Verb,
) -> Result<clap::Command<'a>, AllocError> {
    let mut command = clap::Command::new(alloc, verb.name).about(verb.about);
    if !verb.example.is_empty() {
        command = command.after_help(verb.example);
    }
    for setting in verb.settings {
        command = command.arg(option_of(alloc, *setting)?)?;
    }
    match speaker {
        Speaker::Program => command.arg(option_of(alloc, FILE)?.hide(verb.name == SERVE)),
        Speaker::Question => Ok(command),
    }
}

/// The program, without its commands. The option for a file of rules may stand before the command too.
fn program<'a>(alloc: Global, speaker: Speaker) -> Result<clap::Command<'a>, AllocError> {
    let program = clap::Command::new(alloc, "gdlsolve")
        .about("Read the rules of a game on standard input, and answer on standard output")
        .bin_name("gdlsolve")?
        .version(VERSION)
        .after_help(CLOSING)
        .no_binary_name(true)
        .subcommand_required(true);
    match speaker {
        Speaker::Program => program.arg(option_of(alloc, FILE)?),
        Speaker::Question => Ok(program),
    }
}

/// The commands and their options.
pub(crate) fn grammar<'a>(
    alloc: Global,
    speaker: Speaker,
) -> Result<clap::Command<'a>, AllocError> {
    let mut program = program(alloc, speaker)?;
    for verb in VERBS {
        program = program.subcommand(command_of(alloc, speaker, verb)?)?;
    }
    Ok(program)
}
