// What a walk has to ask in its plane, and what it has asked.
use crate::pile::Pile;
use speck::Part;

mod moves;

// A cell that was found, by its place.
#[derive(Clone, Copy)]
pub(crate) struct Cell {
    pub(crate) row: u8,
    pub(crate) column: u8,
}

#[derive(Drop)]
pub(crate) struct Lists {
    pub(crate) plane: u8,
    // What is to be asked in this plane still, the next on top.
    pub(crate) pending: Pile,
    // What said no in this plane, and waits for the next.
    pub(crate) waiting: Vec<Part>,
    // The cells found so far: the first `kept` before this plane, of which the first `at` are refined. One list with two marks, since to join two at a plane's end takes work for each cell.
    pub(crate) found: Vec<Cell>,
    pub(crate) kept: usize,
    pub(crate) at: usize,
}
