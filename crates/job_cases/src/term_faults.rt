//! Damaged terms, in a job of two types, so that term i stands at place i + 2.
use crate::bench::*;
use std::test::Fail;

#[test]
fn tags(rt: HostRuntime) -> Result<(), Fail> {
    let heap = rt.alloc();
    assert_eq!(rt; term_refused(heap, &[e(15, 0, 0, 0)])?, (7, 2));
    assert_eq!(rt; term_refused(heap, &[e(27, 0, 0, 0)])?, (7, 2));
    assert_eq!(rt; term_refused(heap, &[base()])?, (7, 2), "a type's tag");
    assert_eq!(rt; term_refused(heap, &[unit(), e(0, 0, 0, 0)])?, (7, 3));
    assert_eq!(rt; term_refused(heap, &[unit(), e(26, 0, 0, 0)])?, (0, 0));
    Ok(())
}

#[test]
fn operands_of_values(rt: HostRuntime) -> Result<(), Fail> {
    let heap = rt.alloc();
    assert_eq!(rt; term_refused(heap, &[e(16, 2, 0, u64::MAX)])?, (0, 0));
    assert_eq!(rt; term_refused(heap, &[e(16, 3, 0, 0)])?, (8, 2));
    assert_eq!(rt;
        term_refused(heap, &[e(16, 0, 0, 1)])?,
        (8, 2),
        "a payload of Unit"
    );
    assert_eq!(rt; term_refused(heap, &[e(16, 1, 1, 0)])?, (8, 2));
    Ok(())
}

#[test]
fn operands_of_variables(rt: HostRuntime) -> Result<(), Fail> {
    let heap = rt.alloc();
    assert_eq!(rt; term_refused(heap, &[e(17, 1023, 0, 0)])?, (12, 2));
    assert_eq!(rt; term_refused(heap, &[e(17, 1024, 0, 0)])?, (8, 2));
    assert_eq!(rt;
        term_refused(heap, &[e(17, 0, 1, 0), e(18, 0, 0, 0)])?,
        (8, 2)
    );
    assert_eq!(rt;
        term_refused(heap, &[e(17, 0, 0, 1), e(18, 0, 0, 0)])?,
        (8, 2)
    );
    Ok(())
}

#[test]
fn operands_of_abstractions(rt: HostRuntime) -> Result<(), Fail> {
    let heap = rt.alloc();
    assert_eq!(rt;
        term_refused(heap, &[e(17, 0, 0, 0), e(18, 0, 1, 1)])?,
        (0, 0)
    );
    assert_eq!(rt;
        term_refused(heap, &[e(17, 0, 0, 0), e(18, 1, 0, 0)])?,
        (8, 3)
    );
    assert_eq!(rt;
        term_refused(heap, &[e(17, 0, 0, 0), e(18, 0, 2, 0)])?,
        (8, 3),
        "no such sufficient claim"
    );
    assert_eq!(rt;
        term_refused(heap, &[e(17, 0, 0, 0), e(18, 0, 0, 2)])?,
        (8, 3),
        "no such necessary claim"
    );
    assert_eq!(rt;
        term_refused(heap, &[e(17, 0, 0, 0), e(18, 0, 0, 1 << 32)])?,
        (8, 3),
        "all 64 bits are compared"
    );
    Ok(())
}

#[test]
fn operands_of_pairs(rt: HostRuntime) -> Result<(), Fail> {
    let heap = rt.alloc();
    assert_eq!(rt;
        term_refused(heap, &[unit(), unit(), e(19, 0, 1, 0)])?,
        (0, 0)
    );
    assert_eq!(rt;
        term_refused(heap, &[unit(), unit(), e(19, 2, 1, 0)])?,
        (8, 4)
    );
    assert_eq!(rt;
        term_refused(heap, &[unit(), unit(), e(24, 0, 2, 0)])?,
        (8, 4)
    );
    assert_eq!(rt;
        term_refused(heap, &[unit(), unit(), e(24, 0, 1, 1)])?,
        (8, 4)
    );
    assert_eq!(rt;
        term_refused(heap, &[unit(), unit(), e(19, 0, 3, 0)])?,
        (8, 4)
    );
    Ok(())
}

#[test]
fn operands_of_the_others(rt: HostRuntime) -> Result<(), Fail> {
    let heap = rt.alloc();
    assert_eq!(rt; term_refused(heap, &[unit(), e(20, 1, 0, 0)])?, (8, 3));
    assert_eq!(rt; term_refused(heap, &[unit(), e(20, 0, 1, 0)])?, (8, 3));
    assert_eq!(rt; term_refused(heap, &[unit(), e(22, 0, 0, 1)])?, (8, 3));
    assert_eq!(rt; term_refused(heap, &[unit(), e(23, 0, 0, 4)])?, (8, 3));
    assert_eq!(rt; term_refused(heap, &[e(23, 0, 0, 0)])?, (8, 2));
    assert_eq!(rt; term_refused(heap, &[unit(), e(25, 0, 1, 0)])?, (8, 3));
    Ok(())
}

#[test]
fn roles(rt: HostRuntime) -> Result<(), Fail> {
    let heap = rt.alloc();
    assert_eq!(rt; term_refused(heap, &[unit(), e(21, 0, 0, 255)])?, (0, 0));
    assert_eq!(rt; term_refused(heap, &[unit(), e(21, 0, 0, 256)])?, (9, 3));
    assert_eq!(rt; term_refused(heap, &[unit(), e(25, 0, 0, 256)])?, (9, 3));
    assert_eq!(rt;
        term_refused(heap, &[unit(), e(26, 0, 0, 1 << 63)])?,
        (9, 3)
    );
    assert_eq!(rt;
        term_refused(heap, &[unit(), e(26, 1, 0, 256)])?,
        (8, 3),
        "operands before role"
    );
    Ok(())
}
