//! Some rows of each command, by all that answers it.
use crate::second::run_rules;
use game_rules::{GroundGame, RuleGame};
use position::NetGame;
use program_replies::reply_alone;
use program_run::{ended, run};
use program_words::{Command, Request, request_in};
use statement::{Status, Width};
use std::alloc::{AllocError, AllocGlobal, Global};
use std::thread::Threads;
use test_games::texts::{FOUR, LIVE, MARKS, MATCH, SIXTEEN, UNBASED};

/// The words of a command with a bar between each two, what is written, and the status.
type Row<'a> = (&'a str, &'a [u8], Status);

/// One role picks one of four goals, of which the second and the last are greatest.
const PICK: &[u8] =
    b"(role a)(base (got p))(base (got q))(base (got r))(base (got s))(input a s)(input a r)(input a q)(input a p)(<= (legal a ?m) (input a ?m))(<= (next (got ?m)) (does a ?m))(<= terminal (true (got ?m)))(<= (goal a 10) (true (got p)))(<= (goal a 60) (true (got q)))(<= (goal a 30) (true (got r)))(<= (goal a 60) (true (got s)))";

/// The second role never has a move.
const IDLE: &[u8] = b"(role a)(role b)(base p)(init p)(input a go)(legal a go)(goal a 40)";

/// Descriptions, and what is told of each.
const ROWS: [(&[u8], &[Row]); 12] = [
    (
        b"(ROLE A)(role a)",
        &[("show", b"(role a)\n(role a)\n", Status::Answer)],
    ),
    (
        b"(role a",
        &[("show", b"refused K4 Unclosed 0\n", Status::Refused)],
    ),
    (
        MATCH,
        &[
            (
                "check",
                b"items 16\nalternatives 16\nrelations 7\nroles a b\n",
                Status::Answer,
            ),
            (
                "moves",
                b"state open\nlegal a h\nlegal a t\nlegal b h\nlegal b t\n",
                Status::Answer,
            ),
            (
                "moves|--after|(h t)",
                b"state ended\ngoal a 0\ngoal b 100\n",
                Status::Answer,
            ),
            (
                "moves|--after|(h",
                b"refused H1 BadForm 0\n",
                Status::Refused,
            ),
            (
                "moves|--after|(h x)",
                b"refused H2 NotLegal 1 b\n",
                Status::Refused,
            ),
            (
                "moves|--after|(h t) (h h)",
                b"refused H3 Over 2\n",
                Status::Refused,
            ),
            (
                "solve|--role|b|--depth|1|--after|",
                b"value 0\nmove h\nline 1 h h\n",
                Status::Answer,
            ),
            (
                "solve|--role| A ; the first|--depth|1|--cut|2x2",
                b"value 0\nmove h\nline 1 h t\n",
                Status::Answer,
            ),
            (
                "solve|--role|a|--depth|0|--after|(h h)",
                b"value 100\nmove none\n",
                Status::Answer,
            ),
            (
                "solve|--role|c|--depth|1|--after|(h x)",
                b"refused S1 NoSuchRole\n",
                Status::Refused,
            ),
            (
                "solve|--role|a|--depth|1|--cut|4|--after|(h x)",
                b"refused H2 NotLegal 1 b\n",
                Status::Refused,
            ),
            (
                "solve|--deepen|--role|c|--depth|1|--after|(h x)",
                b"refused S1 NoSuchRole\n",
                Status::Refused,
            ),
        ],
    ),
    (
        b"(role a)(<= (p ?x) (p ?x))",
        &[("check", b"refused G4 Recursive 2\n", Status::Refused)],
    ),
    (
        UNBASED,
        &[
            (
                "net",
                b"base 1\ninputs 1\ninstances 9\ndropped 2\nnodes 13\n",
                Status::Answer,
            ),
            (
                "state|--after|(go)",
                b"state ended\ntrue p\n",
                Status::Answer,
            ),
        ],
    ),
    (b"", &[("net", b"refused G6 NoRole\n", Status::Refused)]),
    (
        IDLE,
        &[
            (
                "moves|--after|",
                b"state stuck\nlegal a go\n",
                Status::Answer,
            ),
            (
                "moves|--after|(go go)",
                b"refused H4 Stuck 1\n",
                Status::Refused,
            ),
            ("state", b"state stuck\ntrue p\n", Status::Answer),
            (
                "state|--after|(go go)",
                b"refused H4 Stuck 1\n",
                Status::Refused,
            ),
            (
                "solve|--role|a|--depth|3|--after|",
                b"value 0\nmove none\n",
                Status::Answer,
            ),
        ],
    ),
    (
        FOUR,
        &[
            (
                "solve|--role|a|--depth|1|--after|",
                b"value 70\nmove y\nline 1 y\n",
                Status::Answer,
            ),
            (
                "solve|--role|a|--depth|64|--cut|16x4|--after|(zz)",
                b"value 10\nmove none\n",
                Status::Answer,
            ),
        ],
    ),
    (
        PICK,
        &[
            (
                "solve|--deepen|--role|a|--depth|3|--after|",
                b"depth 1\nvalue 60\nmove q\nline 1 q\nsettled\n",
                Status::Answer,
            ),
            (
                "solve|--role|a|--depth|1|--window|59:61",
                b"value 60\nmove q\nline 1 q\n",
                Status::Answer,
            ),
            (
                "solve|--role|a|--depth|1|--window|60:61",
                b"at-most 60\n",
                Status::Answer,
            ),
            (
                "solve|--role|a|--depth|1|--window|9:30",
                b"at-least 30\nmove q\n",
                Status::Answer,
            ),
            (
                "solve|--role|a|--depth|1|--window|9:30|--after|(t)",
                b"refused H2 NotLegal 1 a\n",
                Status::Refused,
            ),
            (
                "values|--role|a|--depth|1",
                b"value 10 p\nvalue 60 q\nvalue 30 r\nvalue 60 s\n",
                Status::Answer,
            ),
            (
                "values|--role|b|--depth|1",
                b"refused S1 NoSuchRole\n",
                Status::Refused,
            ),
            (
                "values|--role|a|--depth|1|--lines",
                b"value 10 p\nline 1 p\nvalue 60 q\nline 1 q\nvalue 30 r\nline 1 r\nvalue 60 s\nline 1 s\n",
                Status::Answer,
            ),
        ],
    ),
    (
        LIVE,
        &[(
            "solve|--role|a|--depth|2|--cut|2",
            b"value 90\nmove x\nline 1 x noop\n",
            Status::Answer,
        )],
    ),
    (
        SIXTEEN,
        &[(
            "solve|--role|r16|--depth|1|--cut|1x2x2",
            b"value 55\nmove go\nline 1 go go go go go go go go go go go go go go go go\n",
            Status::Answer,
        )],
    ),
    (
        MARKS,
        &[(
            "solve|--role|xplayer|--depth|9|--cut|4",
            b"value 50\nmove (mark 1 1)\nline 1 (mark 1 1) noop\nline 2 noop (mark 2 2)\nline 3 (mark 1 2) noop\nline 4 noop (mark 1 3)\nline 5 (mark 3 1) noop\nline 6 noop (mark 2 1)\nline 7 (mark 2 3) noop\nline 8 noop (mark 3 2)\nline 9 (mark 3 3) noop\n",
            Status::Answer,
        )],
    ),
];

/// Whether one thread writes these bytes for a command over rules, with this status.
fn is_told_alone<G: GroundGame, T: AllocGlobal>(
    rt: &T,
    command: &Command,
    text: &[u8],
    row: Row,
) -> Result<bool, AllocError> {
    let (_, want, status) = row;
    let reply = reply_alone::<G, G, T>(rt, command, text)?;
    Ok(reply.output.as_slice() == want && reply.status == status)
}

/// Whether a run over the network, one over the kept instances, and one thread over either tell what a row says of a command.
fn is_run<T: Threads + Sync + AllocGlobal>(
    rt: &T,
    command: &Command,
    text: &[u8],
    row: Row,
) -> Result<bool, AllocError> {
    let (_, want, status) = row;
    let (mut input, mut output) = (text, Vec::new(rt.alloc()));
    let by_network = ended(&run(rt, command, &mut input, &mut output)) == Ok(status)
        && output.as_slice() == want;
    let (mut input, mut output) = (text, Vec::new(rt.alloc()));
    let by_rules = ended(&run_rules(rt, command, &mut input, &mut output)) == Ok(status)
        && output.as_slice() == want;
    Ok(
        by_network
            && by_rules
            && is_told_alone::<NetGame, T>(rt, command, text, row)?
            && is_told_alone::<RuleGame, T>(rt, command, text, row)?,
    )
}

/// The words of a line, which stand with a bar between each two.
fn words_of(alloc: Global, line: &str) -> Result<Vec<&str>, AllocError> {
    let mut words = Vec::new(alloc);
    for word in line.split('|') {
        words.push(word)?;
    }
    Ok(words)
}

/// Whether the command of a line is answered so over a text.
fn is_answered<T: Threads + Sync + AllocGlobal>(
    rt: &T,
    text: &[u8],
    row: Row,
) -> Result<bool, AllocError> {
    let (line, _, _) = row;
    let words = words_of(rt.alloc(), line)?;
    let Request::Run(command, _) = request_in(rt.alloc(), &words, Width::Plain)? else {
        return Ok(false);
    };
    is_run(rt, &command, text, row)
}

#[test]
fn each_row_is_answered_by_all(rt: HostRuntime) -> Result<(), AllocError> {
    for (text, rows) in ROWS {
        for row in rows {
            assert!(rt; is_answered(&rt, text, *row)?, "{}", row.0);
        }
    }
    Ok(())
}

#[test]
fn a_history_has_at_most_1048576_bytes(rt: HostRuntime) -> Result<(), AllocError> {
    let mut line = String::new(rt.alloc());
    line.push_str("moves|--after|")?;
    for _ in 0..1_048_576u32 {
        line.push(' ')?;
    }
    let stuck = b"state stuck\nlegal a go\n";
    assert!(rt; is_answered(&rt, IDLE, (line.as_str(), stuck, Status::Answer))?);
    line.push(' ')?;
    let refused = b"refused H1 BadForm 0\n";
    assert!(rt; is_answered(&rt, IDLE, (line.as_str(), refused, Status::Refused))?);
    Ok(())
}
