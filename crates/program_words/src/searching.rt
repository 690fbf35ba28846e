//! The commands `solve` and `values`: how their options are read.
ghost use Rattle.std.specs.Prelude.{IfOk};
ghost use Rattle.program_words.specs.Requests.{IsCommandIn};

use crate::command::{Command, Inquiry, Sought};
use search_split::Cut;
use statement::{AtBound, Width, Window, Worth};

/// How many turns are looked ahead where `--deepen` is given and no depth.
const DEEPEST: u32 = 64;

/// Why words that the grammar takes make no command.
#[derive(Clone, Copy)]
pub(crate) enum Unfit {
    /// There is none of this name, or it lacks an option.
    Command,
    /// The text of `--cut`.
    Cut,
    /// The text of `--at-bound`.
    Bound,
    /// The text of `--window`.
    Window,
}

impl Unfit {
    /// The line for people, without its end.
    pub(crate) fn line(self) -> &'static str {
        match self {
            Unfit::Command => "no command",
            Unfit::Cut => "bad cut",
            Unfit::Bound => "bad bound",
            Unfit::Window => "bad window",
        }
    }

    /// What the option takes, in lines with their ends.
    pub(crate) fn help(self) -> &'static str {
        match self {
            Unfit::Command => "",
            Unfit::Cut => {
                "  --cut takes one to three numbers joined by x, as 4x2: each from 1 to 16, and their product at most 64\n"
            }
            Unfit::Bound => "  --at-bound takes zero or goal\n",
            Unfit::Window => {
                "  --window takes two whole numbers joined by a colon, as 49:51: the low one from -1, the high one up to 101 and greater\n"
            }
        }
    }
}

/// What the options say that a state is worth where no turn is left and play goes on, or none where that is no text for it.
fn worth_at_bound(options: &clap::ArgMatches) -> Option<AtBound> {
    match options.get_one("unfinished") {
        Some(number) => {
            let number: u32 = number;
            Some(AtBound::Unfinished(Worth::of(u8::try_from(number).ok()?)?))
        }
        None => AtBound::parse(options.get_str("at-bound")?.as_bytes()),
    }
}

/// The window that a text names: two whole numbers joined by a colon, the low one from -1, the high one up to 101 and the greater.
fn window_of(text: &str) -> Option<Window> {
    let (low, high) = text.split_once(':')?;
    let high = high.parse::<u8>().ok()?;
    if low == "-1" {
        return Window::of(None, high);
    }
    Window::of(Some(low.parse::<u8>().ok()?), high)
}

/// In what form a search tells what it finds.
enum Form {
    /// The value, the first best move and the line of play.
    Whole,
    /// The value, as far as it is between bounds.
    Within(Window),
    /// The same as the whole, one depth after the other.
    ByDepth,
    /// What each move makes sure of.
    Moves,
    /// The same, and the line of play behind each move.
    MoveLines,
}

/// The form in which `values` with these options tells what it finds.
fn form_of_values(options: &clap::ArgMatches) -> Form {
    if options.get_flag("lines") {
        return Form::MoveLines;
    }
    Form::Moves
}

/// The form in which `solve` with these options tells what it finds, if a window is one.
fn form_of_solve(options: &clap::ArgMatches) -> Option<Form> {
    if options.get_flag("deepen") {
        return Some(Form::ByDepth);
    }
    match options.get_str("window") {
        Some(text) => Some(Form::Within(window_of(text)?)),
        None => Some(Form::Whole),
    }
}

/// The form in which the command of this name, `solve` or `values`, with these options tells what it finds, if a window is one.
fn form_of(name: &str, options: &clap::ArgMatches) -> Option<Form> {
    match name {
        "values" => Some(form_of_values(options)),
        _ => form_of_solve(options),
    }
}

/// The command of this name, `solve` or `values`, that the options make, or why they make none.
pub(crate) fn search_command<'a>(
    name: &str,
    options: &clap::ArgMatches<'a>,
    width: Width,
) -> Result<Command<'a>, Unfit>
    ensures { IfOk result (IsCommandIn width) }
{
    let cut = options.get_str("cut").ok_or(Unfit::Command)?;
    let cut = Cut::parse(cut.as_bytes()).ok_or(Unfit::Cut)?;
    let at_bound = worth_at_bound(options).ok_or(Unfit::Bound)?;
    let sought = Sought {
        role: options.get_str("role").ok_or(Unfit::Command)?,
        depth: options.get_one("depth").unwrap_or(DEEPEST),
        at_bound,
        cut,
        table: options.get_one("table").ok_or(Unfit::Command)?,
        after: options.get_str("after").unwrap_or(""),
    };
    let inquiry = match form_of(name, options).ok_or(Unfit::Window)? {
        Form::Whole => Inquiry::Solve(sought),
        Form::Within(window) => Inquiry::SolveWithin(sought, window),
        Form::ByDepth => Inquiry::Deepen(sought),
        Form::Moves => Inquiry::Values(sought),
        Form::MoveLines => Inquiry::ValuesWithLines(sought),
    };
    Ok(Command::Ask(inquiry, width))
}
