//! The option for a file of rules, among all other words.
use program_words::{Asked, Request, asked_of};
use std::alloc::{AllocError, Global};

/// Words with a bar between each two, and the file that they name, if any.
type Row<'a> = (&'a str, Option<&'a str>);

/// Words that name a file of rules, or none.
const NAMED: [Row; 11] = [
    ("check", None),
    ("check|--rules|a.kif", Some("a.kif")),
    ("--rules|a.kif|check|--whole", Some("a.kif")),
    ("check|--rules=a.kif|--whole", Some("a.kif")),
    ("check|--rules=-", Some("-")),
    ("check|--rules=--whole", Some("--whole")),
    ("check|--rules|a=b", Some("a=b")),
    // The value of another option is none of this one.
    ("solve|--role|--rules|--depth|1", None),
    ("moves|--after|--rules=a.kif", None),
    ("moves|--after|--after|--rules|a.kif", Some("a.kif")),
    ("moves|--after=--role|--rules|a.kif", Some("a.kif")),
];

/// Words that name no one file, and what they are told in the first line.
const MISUSES: [(&str, &str); 11] = [
    ("check|--rules", NAMELESS),
    ("check|--rules=", NAMELESS),
    ("check|--rules|", NAMELESS),
    ("check|--rules|--whole", NAMELESS),
    (
        "check|--rules|--|a.kif",
        "error: unexpected argument 'a.kif' found\n",
    ),
    ("check|--rules=a.kif|--rules=b.kif", TWICE),
    ("--rules|a.kif|--rules|b.kif|check", TWICE),
    ("--rules|a.kif|check|--rules|a.kif", TWICE),
    ("--rules=a.kif|serve|--whole", OF_SESSION),
    ("serve|--rules|a.kif", OF_SESSION),
    (
        "check|--|--rules",
        "error: unexpected argument '--rules' found\n",
    ),
];

const NAMELESS: &str = "error: a value is required for '--rules <FILE>' but none was supplied\n";

const TWICE: &str = "error: the argument '--rules <FILE>' cannot be used multiple times\n";

const OF_SESSION: &str = "error: the argument '--rules <FILE>' cannot be used with 'serve'\n";

/// The words of a line, which stand with a bar between each two.
fn words_of(alloc: Global, line: &str) -> Result<Vec<&str>, AllocError> {
    let mut words = Vec::new(alloc);
    for word in line.split('|') {
        words.push(word)?;
    }
    Ok(words)
}

/// Whether the words of a row make a command, over the rules of its file.
fn is_named(alloc: Global, row: Row) -> Result<bool, AllocError> {
    let (line, want) = row;
    let words = words_of(alloc, line)?;
    let Asked { request, rules } = asked_of(alloc, &words)?;
    Ok(matches!(request, Request::Run(..)) && rules == want)
}

/// Whether the words of a line are no command, and this is what they are told first.
fn is_misuse(alloc: Global, line: &str, want: &str) -> Result<bool, AllocError> {
    let words = words_of(alloc, line)?;
    let Asked { request, rules } = asked_of(alloc, &words)?;
    match request {
        Request::Misuse(text) => Ok(text.starts_with(want) && rules.is_none()),
        _ => Ok(false),
    }
}

#[test]
fn a_file_of_rules_is_named_once(rt: HostRuntime) -> Result<(), AllocError> {
    for row in NAMED {
        assert!(rt; is_named(rt.alloc(), row)?, "at {}", row.0);
    }
    for (line, want) in MISUSES {
        assert!(rt; is_misuse(rt.alloc(), line, want)?, "at {line}");
    }
    Ok(())
}
