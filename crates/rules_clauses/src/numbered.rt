//! Terms, atoms, literals and alternatives as numbers in flat lists.

/// A part of a term, in the order in which a text has them: a list stands before its terms.
#[derive(Clone, Copy, Debug, PartialEq, Eq)]
pub enum Part {
    /// A variable, by its number in its item.
    Variable(usize),
    /// A constant, by its symbol.
    Constant(usize),
    /// A list that begins with a symbol, and how many terms behind it are its own.
    List(usize, usize),
}

/// Where something stands in a list: from a place up to another.
#[derive(Clone, Copy, Debug, PartialEq, Eq)]
pub struct Span {
    pub from: usize,
    pub to: usize,
}

/// An atom: its relation, and where the parts of its terms stand.
#[derive(Clone, Copy, Debug, PartialEq, Eq)]
pub struct Atom {
    pub relation: usize,
    pub terms: Span,
}

/// An atom, or a negated atom.
#[derive(Clone, Copy, Debug, PartialEq, Eq)]
pub struct Literal {
    pub atom: Atom,
    pub is_negated: bool,
}

/// One way to read an item: its head, and where the literals stand that must all be right, in their order. Alternatives of one item
/// share its literals, so this takes no more memory where they are many.
#[derive(Drop)]
pub struct SharedAlternative {
    /// Where the variables of the item stand.
    pub variables: Span,
    pub head: Atom,
    pub body: Vec<Span>,
}

/// One way to read an item: its head, and the numbers of the literals that must all be right.
#[derive(Drop)]
pub struct Alternative {
    /// Where the variables of the item stand.
    pub variables: Span,
    pub head: Atom,
    pub body: Vec<usize>,
}
