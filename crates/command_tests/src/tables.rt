//! Tests of worked tables.
use crate::equal::is;
use data_files::{FileSpec, MakeFault, Tables};
use df1_base::FileType;
use std::test::Fail;

const INTEGERS: FileSpec = FileSpec {
    number: 7,
    kind: FileType::Integer,
    count: 16,
};

const FLOATS: FileSpec = FileSpec {
    number: 8,
    kind: FileType::Float,
    count: 2,
};

#[test]
fn tables_are_refused_at_their_first_fault(rt: HostRuntime) {
    let many = [INTEGERS; 257];
    let none = FileSpec {
        count: 0,
        ..INTEGERS
    };
    let large = FileSpec {
        count: 1001,
        ..INTEGERS
    };
    let refusals: [(&[FileSpec], MakeFault); 6] = [
        (&many, MakeFault::TooMany),
        (&[none], MakeFault::Empty(7)),
        (&[large], MakeFault::Large(7)),
        (&[INTEGERS, INTEGERS], MakeFault::Twice(7)),
        (&[INTEGERS, large], MakeFault::Large(7)),
        (&[INTEGERS, FLOATS, none, INTEGERS], MakeFault::Empty(7)),
    ];
    for (specs, fault) in refusals {
        is(&rt, Tables::new(rt.alloc(), specs).err(), Some(fault));
    }
}

#[test]
fn words_are_read_and_set_where_they_are(rt: HostRuntime) -> Result<(), Fail> {
    let timers = FileSpec {
        number: 4,
        kind: FileType::Timer,
        count: 2,
    };
    let mut tables = Tables::new(rt.alloc(), &[INTEGERS, timers])?;
    is(&rt, tables.files(), 2);
    is(&rt, tables.spec_at(1), Some(timers));
    is(&rt, tables.spec_at(2), None);
    is(&rt, tables.spec(9), None);
    is(&rt, tables.set(4, 5, 0xABCD), true);
    is(&rt, tables.set(4, 6, 1), false);
    is(&rt, tables.word(4, 5), Some(0xABCD));
    is(&rt, tables.word(7, 5), Some(0));
    is(&rt, tables.word(7, 16), None);
    Ok(())
}

#[test]
fn words_lie_file_after_file(rt: HostRuntime) -> Result<(), Fail> {
    let mut tables = Tables::new(rt.alloc(), &[INTEGERS, FLOATS])?;
    is(&rt, tables.start(8), Some(16));
    is(&rt, tables.start(9), None);
    is(&rt, tables.flat().len(), 20);
    is(&rt, tables.set_words(8, 2, &[0x1234, 0x5678]), true);
    is(&rt, tables.set_words(8, 3, &[1, 2]), false);
    is(&rt, tables.set_words(8, u32::MAX, &[1, 2]), false);
    is(&rt, &tables.flat()[18..], [0x1234u16, 0x5678].as_slice());
    let last = tables.range(8, 2, 2).unwrap_or(&[]);
    is(&rt, last, [0x1234u16, 0x5678].as_slice());
    let ranges = [
        (8, 2, 2, Some(2)),
        (8, 3, 2, None),
        (8, 4, 0, Some(0)),
        (8, 5, 0, None),
        (8, u32::MAX, 2, None),
        (9, 0, 0, None),
    ];
    for (number, first, count, size) in ranges {
        let part = tables.range(number, first, count);
        is(&rt, part.map(|words| words.len()), size);
    }
    Ok(())
}
