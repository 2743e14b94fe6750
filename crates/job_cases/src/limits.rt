//! Jobs on both sides of every limit.
use crate::bench::*;
use std::alloc::{AllocError, Global};
use std::test::Fail;
use tables::entry::Entry;

// So many base types.
fn bases(heap: Global, count: usize) -> Result<Vec<Entry>, AllocError> {
    vec![in heap; base(); count]
}

// A unit under so many others, each naming the one below.
fn tower(heap: Global, count: u32) -> Result<Vec<Entry>, AllocError> {
    let mut terms = Vec::new(heap);
    terms.push(unit())?;
    for i in 0..count {
        terms.push(e(23, i, 0, 0))?;
    }
    Ok(terms)
}

// A variable under so many abstractions.
fn nest(heap: Global, variable: u32, count: u32) -> Result<Vec<Entry>, AllocError> {
    let mut terms = Vec::new(heap);
    terms.push(e(17, variable, 0, 0))?;
    for i in 0..count {
        terms.push(e(18, i, 0, 0))?;
    }
    Ok(terms)
}

// A type of 4,095 parts, and guards over it.
fn large(heap: Global, guards: u32) -> Result<Vec<Entry>, AllocError> {
    let mut types = Vec::new(heap);
    types.push(base())?;
    for i in 0..11u32 {
        types.push(e(2, i, i, 0))?;
    }
    for i in 0..guards {
        types.push(e(3, i.wrapping_add(11), 0, 0))?;
    }
    Ok(types)
}

#[test]
fn counts(rt: HostRuntime) -> Result<(), Fail> {
    let heap = rt.alloc();
    let most = bases(heap, 512)?;
    assert_eq!(rt; refused(heap, most.as_slice(), &[unit()])?, (0, 0));
    let above = bases(heap, 513)?;
    assert_eq!(rt; refused(heap, above.as_slice(), &[unit()])?, (4, 0));
    let tall = tower(heap, 1023)?;
    assert_eq!(rt; refused(heap, &[], tall.as_slice())?, (0, 0));
    assert_eq!(rt; refused(heap, most.as_slice(), tall.as_slice())?, (0, 0));
    let higher = tower(heap, 1024)?;
    assert_eq!(rt; refused(heap, &[], higher.as_slice())?, (4, 0));
    assert_eq!(rt; refused(heap, &[], &[])?, (4, 0));
    Ok(())
}

#[test]
fn sizes(rt: HostRuntime) -> Result<(), Fail> {
    let heap = rt.alloc();
    assert_eq!(rt;
        type_refused(heap, large(heap, 1)?.as_slice())?,
        (0, 0),
        "4,096 parts"
    );
    assert_eq!(rt;
        type_refused(heap, large(heap, 2)?.as_slice())?,
        (10, 13),
        "4,097 parts"
    );
    let mut doubled = large(heap, 0)?;
    doubled.push(e(2, 11, 11, 0))?;
    assert_eq!(rt; type_refused(heap, doubled.as_slice())?, (10, 12));
    Ok(())
}

#[test]
fn depths(rt: HostRuntime) -> Result<(), Fail> {
    let heap = rt.alloc();
    let types = [base()];
    assert_eq!(rt;
        refused(heap, &types, nest(heap, 1022, 1023)?.as_slice())?,
        (0, 0)
    );
    assert_eq!(rt;
        refused(heap, &types, nest(heap, 1023, 1023)?.as_slice())?,
        (12, 1)
    );
    assert_eq!(rt;
        refused(heap, &types, nest(heap, 1022, 1022)?.as_slice())?,
        (12, 1)
    );
    Ok(())
}

#[test]
fn the_last_entry(rt: HostRuntime) -> Result<(), Fail> {
    let heap = rt.alloc();
    let mut types = bases(heap, 511)?;
    types.push(e(3, 0, 0, 256))?;
    assert_eq!(rt; refused(heap, types.as_slice(), &[unit()])?, (9, 511));
    let mut terms = tower(heap, 1022)?;
    terms.push(e(23, 1023, 0, 0))?;
    assert_eq!(rt; refused(heap, &[base()], terms.as_slice())?, (8, 1024));
    Ok(())
}
