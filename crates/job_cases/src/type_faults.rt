//! Damaged types.
use crate::bench::*;
use std::test::Fail;

#[test]
fn tags(rt: HostRuntime) -> Result<(), Fail> {
    let heap = rt.alloc();
    assert_eq!(rt; type_refused(heap, &[e(0, 0, 0, 0)])?, (7, 0));
    assert_eq!(rt; type_refused(heap, &[e(5, 0, 0, 0)])?, (7, 0));
    assert_eq!(rt; type_refused(heap, &[base(), e(255, 0, 0, 0)])?, (7, 1));
    assert_eq!(rt;
        type_refused(heap, &[base(), base(), unit()])?,
        (7, 2),
        "a term's tag"
    );
    assert_eq!(rt; type_refused(heap, &[base(), e(4, 0, 0, 0)])?, (0, 0));
    Ok(())
}

#[test]
fn operands_of_base(rt: HostRuntime) -> Result<(), Fail> {
    let heap = rt.alloc();
    assert_eq!(rt; type_refused(heap, &[e(1, 2, 0, 0)])?, (0, 0));
    assert_eq!(rt; type_refused(heap, &[e(1, 3, 0, 0)])?, (8, 0));
    assert_eq!(rt; type_refused(heap, &[base(), e(1, 1, 1, 0)])?, (8, 1));
    assert_eq!(rt; type_refused(heap, &[base(), e(1, 1, 0, 1)])?, (8, 1));
    assert_eq!(rt; type_refused(heap, &[e(1, u32::MAX, 0, 0)])?, (8, 0));
    Ok(())
}

#[test]
fn operands_of_function(rt: HostRuntime) -> Result<(), Fail> {
    let heap = rt.alloc();
    assert_eq!(rt; type_refused(heap, &[base(), e(2, 0, 0, 0)])?, (0, 0));
    assert_eq!(rt; type_refused(heap, &[e(2, 0, 0, 0)])?, (8, 0));
    assert_eq!(rt;
        type_refused(heap, &[base(), e(2, 1, 0, 0)])?,
        (8, 1),
        "names itself"
    );
    assert_eq!(rt; type_refused(heap, &[base(), e(2, 0, 1, 0)])?, (8, 1));
    assert_eq!(rt;
        type_refused(heap, &[base(), e(2, 0, 2, 0), base()])?,
        (8, 1),
        "names a higher one"
    );
    assert_eq!(rt; type_refused(heap, &[base(), e(2, 0, 0, 1)])?, (8, 1));
    Ok(())
}

#[test]
fn operands_and_roles_of_guards(rt: HostRuntime) -> Result<(), Fail> {
    let heap = rt.alloc();
    assert_eq!(rt; type_refused(heap, &[base(), e(3, 0, 0, 255)])?, (0, 0));
    assert_eq!(rt; type_refused(heap, &[base(), e(3, 0, 0, 256)])?, (9, 1));
    assert_eq!(rt; type_refused(heap, &[base(), e(4, 0, 0, 256)])?, (9, 1));
    assert_eq!(rt;
        type_refused(heap, &[base(), e(4, 0, 0, u64::MAX)])?,
        (9, 1)
    );
    assert_eq!(rt; type_refused(heap, &[base(), e(3, 1, 0, 0)])?, (8, 1));
    assert_eq!(rt; type_refused(heap, &[base(), e(4, 0, 1, 0)])?, (8, 1));
    assert_eq!(rt;
        type_refused(heap, &[base(), e(3, 1, 0, 256)])?,
        (8, 1),
        "operands before role"
    );
    Ok(())
}

#[test]
fn the_lowest_is_told(rt: HostRuntime) -> Result<(), Fail> {
    let heap = rt.alloc();
    assert_eq!(rt;
        type_refused(heap, &[e(1, 3, 0, 0), e(0, 0, 0, 0)])?,
        (8, 0)
    );
    assert_eq!(rt;
        type_refused(heap, &[base(), e(3, 0, 0, 256), e(9, 0, 0, 0)])?,
        (9, 1)
    );
    assert_eq!(rt;
        refused(heap, &[base(), e(9, 0, 0, 0)], &[e(9, 0, 0, 0)])?,
        (7, 1),
        "types before terms"
    );
    Ok(())
}
