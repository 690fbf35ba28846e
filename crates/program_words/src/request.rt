//! What the words ask for.
ghost use Rattle.std.specs.Prelude.{◌≡◌, IfOk, IfSome};
ghost use Rattle.statement.specs.declared.width.Width.TheVariants.{Plain};
ghost use Rattle.program_words.specs.Requests.{IsCommandIn, IsRequestIn, IsRequestOver, IsText, width_of};

use crate::command::{Command, Inquiry, Language};
use crate::grammar::{RULES, SERVE, Speaker, grammar};
use crate::searching::{Unfit, search_command};
use clap::error::ErrorKind;
use statement::Width;
use std::alloc::{AllocError, Global};

/// What words of the whole language are told where the rules have to be in the profile.
const PLAIN_ALONE: &str = "--whole is an option of the program alone\n";

/// What the words ask for.
#[derive(Drop)]
pub enum Request<'a> {
    /// A command over rules in a language.
    Run(Command<'a>, Language),
    /// The findings in rules: what is lawful and most likely wrong.
    Lint,
    /// Rules as they are found, written out as rules in the profile.
    Unroll(Language),
    /// A session over rules in a language.
    Serve(Language),
    /// A text for the output: help, or the version.
    Help(String),
    /// A text for the errors, since the words are no command: what is wrong with them.
    Misuse(String),
}

/// What the words of the program ask for, and the name of the file of rules, if they name one.
#[derive(Drop)]
pub struct Asked<'a> {
    pub request: Request<'a>,
    pub rules: Option<&'a str>,
}

/// In which language the options say that the rules are.
fn language_of(options: &clap::ArgMatches) -> Language {
    if !options.get_flag("whole") {
        return Language::Profile;
    }
    if options.get_flag("tighten") {
        return Language::Tightened;
    }
    Language::Whole
}

/// In which language the rules are that `unroll` with these options writes out.
fn found_language_of(options: &clap::ArgMatches) -> Language {
    if options.get_flag("tighten") {
        return Language::Tightened;
    }
    Language::Whole
}

/// The command of this name with these options, or why they make none.
fn command_of<'a>(
    name: &str,
    options: &clap::ArgMatches<'a>,
    width: Width,
) -> Result<Command<'a>, Unfit>
    ensures { IfOk result (IsCommandIn width) }
{
    let after = options.get_str("after").unwrap_or("");
    match name {
        "show" => Ok(Command::Show),
        "check" => Ok(Command::Check),
        "net" => Ok(Command::Ask(Inquiry::Net, width)),
        "moves" => Ok(Command::Ask(Inquiry::Moves { after }, width)),
        "state" => Ok(Command::Ask(Inquiry::State { after }, width)),
        "solve" | "values" => search_command(name, options, width),
        _ => Err(Unfit::Command),
    }
}

/// By which limits rules in a language are instantiated, where those in the profile are by these: what is written out may have more inputs.
fn width_in(language: Language, plain: Width) -> Width
    ensures { result ≡ width_of language plain }
{
    match language {
        Language::Profile => plain,
        Language::Whole | Language::Tightened => Width::Wide,
    }
}

/// The request of the command of this name with these options, or why they make none.
fn request_by<'a>(
    name: &str,
    options: &clap::ArgMatches<'a>,
    plain: Width,
) -> Result<Request<'a>, Unfit>
    ensures { IfOk result (IsRequestIn plain) }
{
    match name {
        "lint" => Ok(Request::Lint),
        "unroll" => Ok(Request::Unroll(found_language_of(options))),
        "serve" => Ok(Request::Serve(language_of(options))),
        _ => {
            let language = language_of(options);
            match command_of(name, options, width_in(language, plain)) {
                Ok(command) => Ok(Request::Run(command, language)),
                Err(unfit) => Err(unfit),
            }
        }
    }
}

/// What words that make no command are told: help, or what is wrong with them.
fn told_by<'a>(alloc: Global, error: &clap::Error) -> Result<Request<'a>, AllocError>
    ensures { IfOk result IsText }
{
    match error.kind() {
        ErrorKind::OutOfMemory => Err(AllocError),
        ErrorKind::DisplayHelp | ErrorKind::DisplayVersion => {
            Ok(Request::Help(error.to_string(alloc)?))
        }
        _ => Ok(Request::Misuse(error.to_string(alloc)?)),
    }
}

/// What words are told that the grammar takes, and that make no request all the same.
fn refused<'a>(
    alloc: Global,
    grammar: &mut clap::Command,
    kind: ErrorKind,
    why: &str,
) -> Result<Request<'a>, AllocError>
    ensures { IfOk result IsText }
{
    let error = grammar.error(kind, why)?;
    told_by(alloc, &error)
}

/// What words are told that the grammar takes, and that make no command. The program is told more: what the option takes.
fn misused<'a>(
    alloc: Global,
    grammar: &mut clap::Command,
    speaker: Speaker,
    unfit: Unfit,
) -> Result<Request<'a>, AllocError>
    ensures { IfOk result IsText }
{
    let line = unfit.line();
    match (unfit, speaker) {
        (Unfit::Command, _) => refused(alloc, grammar, ErrorKind::MissingSubcommand, line),
        (_, Speaker::Question) => Ok(Request::Misuse(format!(in alloc; "{line}\n")?)),
        (_, Speaker::Program) => {
            let help = unfit.help();
            Ok(Request::Misuse(format!(in alloc; "{line}\n{help}")?))
        }
    }
}

/// The request of words that were matched, where rules in the profile are instantiated by the limits of a width.
fn of_matches<'a>(
    alloc: Global,
    grammar: &mut clap::Command<'a>,
    matches: &clap::ArgMatches<'a>,
    speaker: Speaker,
    plain: Width,
) -> Result<Request<'a>, AllocError>
    ensures { IfOk result (IsRequestIn plain) }
{
    let made = match matches.subcommand() {
        Some((name, options)) => request_by(name, options, plain),
        None => Err(Unfit::Command),
    };
    match made {
        Ok(request) => Ok(request),
        Err(unfit) => misused(alloc, grammar, speaker, unfit),
    }
}

/// Why words name no one file of rules.
#[derive(Clone, Copy)]
enum Misnamed {
    /// It is named twice.
    Twice,
    /// Its name is empty.
    Nameless,
    /// A session has its rules among its requests.
    OfSession,
}

impl Misnamed {
    /// What is said of it.
    fn text(self) -> &'static str {
        match self {
            Misnamed::Twice => "the argument '--rules <FILE>' cannot be used multiple times",
            Misnamed::Nameless => "a value is required for '--rules <FILE>' but none was supplied",
            Misnamed::OfSession => "the argument '--rules <FILE>' cannot be used with 'serve'",
        }
    }
}

/// The file of rules that the words name before the command or behind it, if they name one.
fn file_of<'a>(matches: &clap::ArgMatches<'a>) -> Result<Option<&'a str>, Misnamed> {
    let before = matches.get_str(RULES);
    let behind = match matches.subcommand() {
        Some((_, options)) => options.get_str(RULES),
        None => None,
    };
    let Some(file) = before.or(behind) else {
        return Ok(None);
    };
    if matches.subcommand_name() == Some(SERVE) {
        return Err(Misnamed::OfSession);
    }
    if before.is_some() && behind.is_some() {
        return Err(Misnamed::Twice);
    }
    if file.is_empty() {
        return Err(Misnamed::Nameless);
    }
    Ok(Some(file))
}

/// The same for the words of the program, with the file that they name.
fn asked_by<'a>(
    alloc: Global,
    grammar: &mut clap::Command<'a>,
    matches: &clap::ArgMatches<'a>,
) -> Result<Asked<'a>, AllocError>
    ensures { IfOk result (λ asked. IsRequestIn Plain asked.request) }
{
    match file_of(matches) {
        Ok(rules) => Ok(Asked {
            request: of_matches(alloc, grammar, matches, Speaker::Program, Width::Plain)?,
            rules,
        }),
        Err(misnamed) => Ok(Asked {
            request: refused(alloc, grammar, ErrorKind::ArgumentConflict, misnamed.text())?,
            rules: None,
        }),
    }
}

/// A text that says what is wrong with words, and behind it how a file is read, for each word that looks like one.
fn with_advice(words: &[&str], text: String) -> Result<String, AllocError> {
    let mut output = text;
    for word in words {
        if word.ends_with(".kif") {
            output.push_str("  the rules are read on standard input: < ")?;
            output.push_str(word)?;
            output.push_str("\n")?;
        }
    }
    Ok(output)
}

/// Adds to what is wrong with words how a file is read, where one of them looks like one.
fn advised<'a>(words: &[&str], asked: Asked<'a>) -> Result<Asked<'a>, AllocError>
    requires { IsRequestIn Plain asked.request }
    ensures { IfOk result (λ asked. IsRequestIn Plain asked.request) }
{
    let Asked { request, rules } = asked;
    let request = match request {
        Request::Misuse(text) => Request::Misuse(with_advice(words, text)?),
        request => request,
    };
    Ok(Asked { request, rules })
}

/// What the words of the program ask for by the grammar, without what helps with misuse of files.
fn asked_by_words<'a>(
    alloc: Global,
    grammar: &mut clap::Command<'a>,
    words: &'a [&'a str],
) -> Result<Asked<'a>, AllocError>
    ensures { IfOk result (λ asked. IsRequestIn Plain asked.request) }
{
    let matches = match grammar.try_get_matches_from_mut(words) {
        Ok(matches) => matches,
        Err(error) => {
            return Ok(Asked {
                request: told_by(alloc, &error)?,
                rules: None,
            });
        }
    };
    asked_by(alloc, grammar, &matches)
}

/// What the words of the program ask for, which are its arguments without its name. What is written for rules as they are found may have
/// more inputs. It fails only for want of memory.
pub fn asked_of<'a>(alloc: Global, words: &'a [&'a str]) -> Result<Asked<'a>, AllocError>
    ensures { IfOk result (λ asked. IsRequestIn Plain asked.request) }
{
    let mut grammar = grammar(alloc, Speaker::Program)?;
    let asked = asked_by_words(alloc, &mut grammar, words)?;
    advised(words, asked)
}

/// The request that the words of a question make by the grammar.
fn request_by_words<'a>(
    alloc: Global,
    grammar: &mut clap::Command<'a>,
    words: &'a [&'a str],
    width: Width,
) -> Result<Request<'a>, AllocError>
    ensures { IfOk result (IsRequestIn width) }
{
    let matches = match grammar.try_get_matches_from_mut(words) {
        Ok(matches) => matches,
        Err(error) => return told_by(alloc, &error),
    };
    of_matches(alloc, grammar, &matches, Speaker::Question, width)
}

/// The request of one question, where its words make one of rules that stand.
fn over_rules<'a>(
    alloc: Global,
    grammar: &mut clap::Command<'a>,
    request: Request<'a>,
    width: Width,
) -> Result<Request<'a>, AllocError>
    requires { IsRequestIn width request }
    ensures { IfOk result (IsRequestOver width) }
{
    match request {
        Request::Run(command, Language::Profile) => Ok(Request::Run(command, Language::Profile)),
        Request::Run(_, Language::Whole | Language::Tightened) => {
            Ok(Request::Misuse(format!(in alloc; "{PLAIN_ALONE}")?))
        }
        Request::Unroll(_) | Request::Serve(_) => {
            misused(alloc, grammar, Speaker::Question, Unfit::Command)
        }
        Request::Lint => Ok(Request::Lint),
        Request::Help(text) => Ok(Request::Help(text)),
        Request::Misuse(text) => Ok(Request::Misuse(text)),
    }
}

/// The request that the words make of rules that stand, which are instantiated by the limits of a width: a command over rules in the
/// profile, `lint`, or a text. It fails only for want of memory.
pub fn request_in<'a>(
    alloc: Global,
    words: &'a [&'a str],
    width: Width,
) -> Result<Request<'a>, AllocError>
    ensures { IfOk result (IsRequestOver width) }
{
    let mut grammar = grammar(alloc, Speaker::Question)?;
    let request = request_by_words(alloc, &mut grammar, words, width)?;
    over_rules(alloc, &mut grammar, request, width)
}
