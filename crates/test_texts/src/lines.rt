//! Worked places: lines that end as they may, tabs, comments, and bytes above 127.
use diagnose_places::{
    Line, Place, TokenKind, Tokens, item_start, line_around, place_of, word_start,
};
use kif::read;
use std::test::Fail;

/// Offsets of texts, with the line and the column.
const PLACES: [(&[u8], usize, usize, usize); 15] = [
    (b"", 0, 1, 1),
    (b"", 7, 1, 1),
    (b"(a)", 0, 1, 1),
    (b"(a)", 2, 1, 3),
    (b"(a)", 3, 1, 4),
    (b"(a)\n(b)", 3, 1, 4),
    (b"(a)\n(b)", 4, 2, 1),
    (b"(a)\n(b)\n", 8, 3, 1),
    (b"(a)\r\n(b)\r\n(c)", 5, 2, 1),
    (b"(a)\r\n(b)\r\n(c)", 11, 3, 2),
    (b"\n\n\t(a)", 3, 3, 2),
    // A letter of two bytes and one of three are a character each.
    (b"; \xc3\xa9 \xe2\x82\xac (", 9, 1, 7),
    (b"\xef\xbb\xbf(a)", 0, 1, 1),
    (b"\xef\xbb\xbf(a)", 3, 1, 2),
    (b"a\n\xc3\xa9\xc3", 4, 2, 2),
];

/// A text whose lines end with and without a carriage return, one of them empty.
const LINES: &[u8] = b"(a)\n(b) c\r\n\nd";

/// Offsets in it, with the start and the end of the line around them.
const AROUND: [(usize, usize, usize); 5] = [
    (0, 0, 3),
    (3, 0, 3),
    (4, 4, 10),
    (11, 11, 11),
    (99, 12, 13),
];

#[test]
fn places_are_lines_and_columns(rt: HostRuntime) {
    for (text, offset, line, column) in PLACES {
        assert_eq!(rt;
            place_of(text, offset),
            Place { line, column },
            "{offset} of {text:?}"
        );
    }
    for (offset, start, end) in AROUND {
        assert_eq!(rt;
            line_around(LINES, offset),
            Line { start, end },
            "around {offset}"
        );
    }
}

#[test]
fn tokens_come_in_order(rt: HostRuntime) {
    let mut tokens = Tokens::new(b" (ab;c)\n)\"x");
    let wanted = [
        (1, TokenKind::Opening),
        (2, TokenKind::Word),
        (8, TokenKind::Closing),
        (9, TokenKind::Stray),
        (10, TokenKind::Word),
    ];
    for (start, kind) in wanted {
        let token = tokens.next();
        assert_eq!(rt; token.map(|t| t.start), Some(start));
        assert_eq!(rt; token.map(|t| t.kind), Some(kind));
    }
    assert_eq!(rt; tokens.next().map(|t| t.start), None);
    assert_eq!(rt; tokens.next().map(|t| t.start), None);
}

/// Five trees in three lines.
const TEXT: &[u8] = b"; (a)\n(p ?X (q x)) a\n (<= (r ?x)\n\t(p ?x Ax)) () end";

/// Where its trees begin; there is no sixth.
const STARTS: [Option<usize>; 6] = [Some(6), Some(19), Some(22), Some(45), Some(48), None];

/// Names, where they first stand from a tree on.
const NAMES: [(usize, &[u8], Option<usize>); 8] = [
    (0, b"?x", Some(9)),
    (0, b"x", Some(15)),
    (0, b"a", Some(19)),
    (2, b"?x", Some(29)),
    (1, b"ax", Some(40)),
    (2, b"?y", None),
    (4, b"end", Some(48)),
    (5, b"end", None),
];

#[test]
fn trees_and_names_begin_where_they_are_read(rt: HostRuntime) -> Result<(), Fail> {
    let items = read(rt.alloc(), TEXT)?;
    assert_eq!(rt; items.len(), 5);
    for (index, start) in STARTS.into_iter().enumerate() {
        assert_eq!(rt; item_start(TEXT, &items, index), start, "tree {index}");
    }
    for (index, name, start) in NAMES {
        assert_eq!(rt;
            word_start(TEXT, &items, index, name),
            start,
            "{name:?} from {index}"
        );
    }
    Ok(())
}
