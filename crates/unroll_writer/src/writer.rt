//! Items that are written one after the other, each in a line.
use kif::{Expr, TEXT_LIMIT};
use rules_profile::ITEMS_LIMIT;
use rules_relations::split_atom;
use std::alloc::{AllocError, Global};
use unroll_datalog::{Excess, LimitFault};

/// The text so far, and how many items it has.
#[derive(Drop)]
pub(crate) struct Writer {
    text: Vec<u8>,
    items: usize,
}

/// Adds a number in decimal.
pub(crate) fn add_number(text: &mut Vec<u8>, number: u32) -> Result<(), AllocError> {
    use std::io::Write;
    write!(text, "{number}").map_err(|_| AllocError)
}

/// Adds the canonical text of a tree.
pub(crate) fn add_tree(text: &mut Vec<u8>, e: &Expr<Global>) -> Result<(), AllocError> {
    kif::write(e, text).map_err(|_| AllocError)
}

impl Writer {
    /// Nothing yet.
    pub(crate) fn new(alloc: Global) -> Self {
        Writer {
            text: Vec::new(alloc),
            items: 0,
        }
    }

    /// Adds bytes.
    pub(crate) fn add(&mut self, bytes: &[u8]) -> Result<(), AllocError> {
        self.text.extend_from_slice(bytes)?;
        Ok(())
    }

    /// Adds a letter and a number, as the name of a variable.
    pub(crate) fn add_variable(&mut self, letter: u8, number: u32) -> Result<(), AllocError> {
        self.text.push(b'?')?;
        self.text.push(letter)?;
        add_number(&mut self.text, number)
    }

    /// Adds a space and the name of a variable, for each of so many.
    pub(crate) fn add_variables(&mut self, letter: u8, many: u32) -> Result<(), AllocError> {
        for number in 0..many {
            self.text.push(b' ')?;
            self.add_variable(letter, number)?;
        }
        Ok(())
    }

    /// Adds an atom whose terms are so many variables.
    pub(crate) fn add_open_atom(
        &mut self,
        name: &[u8],
        letter: u8,
        many: u32,
    ) -> Result<(), AllocError> {
        if many == 0 {
            return self.add(name);
        }
        self.text.push(b'(')?;
        self.add(name)?;
        self.add_variables(letter, many)?;
        self.text.push(b')')?;
        Ok(())
    }

    /// Adds a tree.
    pub(crate) fn add_expr(&mut self, e: &Expr<Global>) -> Result<(), AllocError> {
        add_tree(&mut self.text, e)
    }

    /// Adds an atom under another name.
    pub(crate) fn add_renamed(&mut self, e: &Expr<Global>, name: &[u8]) -> Result<(), AllocError> {
        let (_, terms) = split_atom(e);
        if terms.is_empty() {
            return self.add(name);
        }
        self.text.push(b'(')?;
        self.add(name)?;
        for term in terms {
            self.text.push(b' ')?;
            self.add_expr(term)?;
        }
        self.text.push(b')')?;
        Ok(())
    }

    /// Ends an item.
    pub(crate) fn end_item(&mut self) -> Result<(), LimitFault> {
        self.text.push(b'\n')?;
        self.items = self.items.saturating_add(1);
        if self.items > ITEMS_LIMIT {
            return Err(LimitFault::TooMany(Excess::Items));
        }
        if self.text.len() > TEXT_LIMIT {
            return Err(LimitFault::TooMany(Excess::Text));
        }
        Ok(())
    }

    /// The text.
    pub(crate) fn into_text(self) -> Vec<u8> {
        self.text
    }
}
