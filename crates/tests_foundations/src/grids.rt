//! Tests of a grid: its size, its rows, and what the calls that write leave in it.
use rp_grid::Grid;
use std::alloc::Global;
use std::process::Abort;
use std::test::Fail;

/// Whether a row holds these.
fn has_row(grid: &Grid<u64>, row: u32, want: &[u64]) -> bool {
    row < grid.rows() && grid.row(row) == want
}

/// Writes a number at a place.
fn set(rt: &impl Abort, grid: &mut Grid<u64>, row: u32, column: usize, value: u64) {
    assert!(rt; row < grid.rows());
    let cells = grid.row_mut(row);
    assert!(rt; column < cells.len());
    cells[column] = value;
}

/// Exchanges two rows.
fn exchange(rt: &impl Abort, grid: &mut Grid<u64>, first: u32, second: u32) {
    assert!(rt; first < grid.rows() && second < grid.rows());
    grid.swap(first, second);
}

/// Adds to the first two numbers of row `into` those of row `from`, both rows in one loan.
fn add_row(rt: &impl Abort, grid: &mut Grid<u64>, into: u32, from: u32) {
    assert!(rt; into < grid.rows() && from < grid.rows() && into != from && grid.cols() == 2);
    let mut rows = grid.two(into, from);
    let first = rows.into_at(0).saturating_add(rows.from_at(0));
    rows.set(0, first);
    let second = rows.into_at(1).saturating_add(rows.from_at(1));
    rows.set(1, second);
}

/// Rows are written, exchanged, and one is read while another is written; all others stay.
#[test]
fn a_grid_through_every_call(rt: HostRuntime) -> Result<(), Fail> {
    let mut grid = Grid::new(rt.alloc(), 3, 2, 7u64)?;
    assert_eq!(rt; (grid.rows(), grid.cols()), (3, 2));
    assert!(rt; has_row(&grid, 2, &[7, 7]));
    set(&rt, &mut grid, 0, 0, 1);
    set(&rt, &mut grid, 0, 1, 2);
    set(&rt, &mut grid, 2, 1, 4);
    exchange(&rt, &mut grid, 0, 2);
    assert!(rt; has_row(&grid, 0, &[7, 4]));
    assert!(rt; has_row(&grid, 1, &[7, 7]));
    assert!(rt; has_row(&grid, 2, &[1, 2]));
    exchange(&rt, &mut grid, 1, 1);
    add_row(&rt, &mut grid, 1, 2);
    assert!(rt; grid.rows() == 3);
    assert!(rt; has_row(&grid, 0, &[7, 4]));
    assert!(rt; has_row(&grid, 1, &[8, 9]));
    assert!(rt; has_row(&grid, 2, &[1, 2]));
    Ok(())
}

/// Whether a grid without columns has its rows, also once two are exchanged.
fn is_without_columns(alloc: Global) -> Result<bool, Fail> {
    let mut grid = Grid::new(alloc, 3, 0, 9u8)?;
    grid.swap(0, 2);
    Ok(grid.rows() == 3 && grid.cols() == 0 && grid.row(2).is_empty())
}

/// Whether a grid without rows has its columns.
fn is_without_rows(alloc: Global) -> Result<bool, Fail> {
    let grid = Grid::new(alloc, 0, 5, true)?;
    Ok(grid.rows() == 0 && grid.cols() == 5)
}

/// Whether a grid of elements of sixteen bytes keeps what is written.
fn keeps_wide(alloc: Global) -> Result<bool, Fail> {
    let mut grid = Grid::new(alloc, 2, 1, 1u128)?;
    grid.row_mut(1)[0] = u128::MAX;
    Ok(grid.row(0)[0] == 1 && grid.row(1)[0] == u128::MAX)
}

/// Without rows, without columns, and with elements of one and of sixteen bytes.
#[test]
fn grids_without_elements_and_of_other_sizes(rt: HostRuntime) -> Result<(), Fail> {
    let alloc = rt.alloc();
    assert!(rt; is_without_columns(alloc)?);
    assert!(rt; is_without_rows(alloc)?);
    assert!(rt; keeps_wide(alloc)?);
    Ok(())
}
