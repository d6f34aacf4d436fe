//! The shelves, call by call.
use crate::{DirShelf, FetchFault, Shelf, ShelfMem};
use std::fs;
use std::test::Fail;

#[test]
fn a_shelf_in_memory_gives_the_file_that_was_added_last(rt: HostRuntime) -> Result<(), Fail> {
    let mut shelf = ShelfMem::new(rt.alloc());
    shelf.add("a", b"one", false)?;
    shelf.add("b", b"two", true)?;
    shelf.add("a", b"four", false)?;
    assert_eq!(rt;
        shelf.fetch(rt.alloc(), "a", 4)?.as_slice(),
        b"four".as_slice()
    );
    assert!(rt; shelf.fetch(rt.alloc(), "a", 3) == Err(FetchFault::TooLong));
    assert_eq!(rt; shelf.faults, 0);
    assert!(rt; shelf.fetch(rt.alloc(), "b", 9) == Err(FetchFault::Failed));
    assert!(rt; shelf.fetch(rt.alloc(), "c", 9) == Err(FetchFault::Failed));
    assert_eq!(rt; shelf.faults, 2);
    Ok(())
}

#[test]
fn a_shelf_over_a_folder_gives_whole_files(rt: HostRuntime) -> Result<(), Fail> {
    fs::write(&rt, "shelf_test", b"abcde")?;
    let mut shelf = DirShelf::new(&rt);
    assert_eq!(rt;
        shelf.fetch(rt.alloc(), "shelf_test", 5)?.as_slice(),
        b"abcde".as_slice()
    );
    assert!(rt; shelf.fetch(rt.alloc(), "shelf_test", 4) == Err(FetchFault::TooLong));
    assert_eq!(rt; shelf.faults, 0);
    assert!(rt; shelf.fetch(rt.alloc(), "shelf_test_not_there", 5) == Err(FetchFault::Failed));
    assert_eq!(rt; shelf.faults, 1);
    fs::remove_file(&rt, "shelf_test")?;
    Ok(())
}
