//! The places of variables by a table, so that a body with very many literals is not gone through for each variable.
ghost use Rattle.std.specs.Prelude.{◌≡◌, ◌∷◌, ◌++◌, [], slice_set, Some, None, IfOk, OnOk};
ghost use Rattle.ground_matching.specs.Places.{place_of, place_noted, noted_if, IsTable};

use crate::columns::place_of;
use std::alloc::{AllocError, Global};

/// How many places there are at most where they are gone through, and there is no table.
const FEW: usize = 128;

/// The place that a number notes.
fn place_noted(number: usize) -> Option<usize>
    ensures { result ≡ place_noted number }
{
    if number == 0 {
        return None;
    }
    Some(number - 1)
}

/// The table of no places, where there may be so many and there are so many symbols. It is empty where there are few.
pub fn new_table(alloc: Global, many: usize, symbols: usize) -> Result<Vec<usize>, AllocError>
    ensures { IfOk result (λ table. IsTable [] table.items) }
{
    if many < FEW {
        return Ok(Vec::new(alloc));
    }
    let table = vec![in alloc; 0; symbols]?;
    Ok(table)
}

/// The first place of a variable.
pub fn place_by(table: &[usize], symbol: usize, places: &[Option<usize>]) -> Option<usize>
    requires { IsTable places.now table.now }
    ensures { result ≡ place_of symbol places.now }
{
    if symbol < table.len() {
        return place_noted(table[symbol]);
    }
    place_of(symbol, places)
}

/// Adds a place for the number of an atom.
pub fn add_number_place(table: &[usize], places: &mut Vec<Option<usize>>) -> Result<(), AllocError>
    requires { IsTable places.old.items table.now }
    ensures places { OnOk result (places.new.items ≡ places.old.items ++ None ∷ []) }
    ensures table { OnOk result (IsTable places.new.items table.now) }
{
    let _ = table;
    places.push(None)?;
    Ok(())
}

/// Notes that a variable has the last place.
fn note(table: &mut Vec<usize>, symbol: usize, number: usize)
    ensures { table.new.items ≡ slice_set table.old.items symbol number }
{
    if symbol < table.len() {
        table[symbol] = number;
    }
}

/// Adds a place for a variable that has none yet.
pub fn add_place(
    table: &mut Vec<usize>,
    symbol: usize,
    places: &mut Vec<Option<usize>>,
) -> Result<(), AllocError>
    requires table { IsTable places.old.items table.old.items }
    requires none { place_of symbol places.old.items ≡ None }
    ensures places { OnOk result (places.new.items ≡ places.old.items ++ Some symbol ∷ []) }
    ensures table { OnOk result (IsTable places.new.items table.new.items) }
{
    places.push(Some(symbol))?;
    note(table, symbol, places.len());
    Ok(())
}

/// Notes the place of a variable, if one stands there.
fn note_if_variable(table: &mut Vec<usize>, variable: Option<usize>, number: usize)
    ensures { table.new.items ≡ noted_if table.old.items variable number }
{
    if let Some(symbol) = variable {
        note(table, symbol, number);
    }
}

/// The table of places, where there are so many symbols.
pub fn table_of(
    alloc: Global,
    places: &[Option<usize>],
    symbols: usize,
) -> Result<Vec<usize>, AllocError>
    ensures { IfOk result (λ table. IsTable places.now table.items) }
{
    let mut table = new_table(alloc, places.len(), symbols)?;
    let mut left = places.len();
    'places: while left > 0 {
        left -= 1;
        note_if_variable(&mut table, places[left], left + 1);
    }
    Ok(table)
}
