//! Joins of which a level shares no value with those before it.
use ground_join::{Column, Level, Levels, buckets_of};
use ground_join_plans::{are_levels, reordered_rows};
use std::alloc::{AllocError, Global};
use std::test::Fail;

/// The cells of three levels, (x), (y z) and (z x), each row behind its number. Each x stands with two z, the greater first.
fn cells(alloc: Global) -> Result<Vec<u32>, AllocError> {
    let mut cells = Vec::new(alloc);
    for row in 0..70u32 {
        cells.push(row)?;
        cells.push(1_000 + row)?;
    }
    for row in 0..70u32 {
        cells.push(100 + row)?;
        cells.push(2_000 + row)?;
        cells.push(3_000 + row)?;
    }
    for row in 0..70u32 {
        cells.push(200 + row)?;
        cells.push(3_069 - row)?;
        cells.push(1_000 + row / 2)?;
    }
    Ok(cells)
}

/// The rows of a join that binds so many values, if it is one and they are found in another order.
fn rows_in(
    alloc: Global,
    columns: &[Column],
    cells: &[u32],
    levels: &[Level],
    variables: usize,
    most: usize,
) -> Result<Option<Vec<u32>>, AllocError> {
    if !are_levels(columns, cells, levels, variables) {
        return Ok(None);
    }
    let buckets = buckets_of(alloc, columns, cells, levels)?;
    let written = Levels {
        columns,
        cells,
        levels,
        buckets: &buckets,
    };
    reordered_rows(alloc, &written, variables, most)
}

/// A level whose columns and cells begin at these places.
fn level(columns: (usize, usize), cells_from: usize, rows: usize, bound: usize) -> Level {
    let (columns_from, columns_to) = columns;
    Level {
        columns_from,
        columns_to,
        cells_from,
        rows,
        bound,
    }
}

/// The rows of the join of the three levels, if they are found in another order.
fn rows(alloc: Global, most: usize) -> Result<Option<Vec<u32>>, AllocError> {
    let columns = [
        Column::First,
        Column::First,
        Column::First,
        Column::First,
        Column::First,
        Column::First,
        Column::Same(4),
        Column::Same(1),
    ];
    let levels = [
        level((0, 2), 0, 70, 0),
        level((2, 5), 140, 70, 2),
        level((5, 8), 350, 70, 5),
    ];
    let cells = cells(alloc)?;
    rows_in(alloc, &columns, &cells, &levels, 6, most)
}

#[test]
fn puts_rows_of_another_order_back(rt: HostRuntime) -> Result<(), Fail> {
    let values = rows(rt.alloc(), 70)?.ok_or("not found")?;
    let front = [
        0, 1_000, 168, 2_068, 3_068, 201, 0, 1_000, 169, 2_069, 3_069, 200,
    ];
    assert!(rt; values.len() == 420 && values.starts_with(&front));
    assert!(rt; rows(rt.alloc(), 69)?.is_none());
    Ok(())
}

/// The cells of four levels, (x), (y), (y) and (x z), each row behind its number: 70 rows of each of the first two, one of the third, whose y
/// is no row of the second, and 70 for each x of the last.
fn cells_of_a_trap(alloc: Global) -> Result<Vec<u32>, AllocError> {
    let mut cells = Vec::new(alloc);
    for _ in 0..2 {
        for row in 0..70u32 {
            cells.push(row)?;
            cells.push(1_000 + row)?;
        }
    }
    cells.push(70)?;
    cells.push(2_000)?;
    for x in 0..70u32 {
        for z in 0..70u32 {
            cells.push(100 + 70 * x + z)?;
            cells.push(1_000 + x)?;
            cells.push(1_000 + z)?;
        }
    }
    Ok(cells)
}

// Written as (x) (y) (y) (x z) (x z') (x z''). What links all but the second and the third comes to 24 million rows.
#[test]
fn a_level_of_one_row_comes_first(rt: HostRuntime) -> Result<(), Fail> {
    let first = Column::First;
    let (x, y) = (Column::Same(1), Column::Same(3));
    let columns = [
        first, first, first, first, first, y, first, x, first, first, x, first, first, x, first,
    ];
    let levels = [
        level((0, 2), 0, 70, 0),
        level((2, 4), 140, 70, 2),
        level((4, 6), 280, 1, 4),
        level((6, 9), 282, 4_900, 5),
        level((9, 12), 282, 4_900, 7),
        level((12, 15), 282, 4_900, 9),
    ];
    let cells = cells_of_a_trap(rt.alloc())?;
    let values = rows_in(rt.alloc(), &columns, &cells, &levels, 11, 70)?.ok_or("not found")?;
    assert_eq!(rt; values.len(), 0);
    Ok(())
}
