//! A test of the size of a cell.
use crate::equal::is;
use lane_cells::Cell;
use std::mem::size_of;

#[test]
fn a_cell_takes_24_bytes(rt: HostRuntime) {
    is(&rt, size_of::<Cell>(), 24);
}
