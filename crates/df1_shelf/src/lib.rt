//! Shelves, from which a file is fetched whole by its name: in memory, and over the current folder.
#![tactic(auto)]

mod dir_shelf;
mod shelf;
mod shelf_mem;
#[cfg(test)]
mod tests;

pub use dir_shelf::DirShelf;
pub use shelf::{FetchFault, Shelf};
pub use shelf_mem::ShelfMem;
