//! Terms that are not named once, and variables with no binder, in a job of two types.
use crate::bench::*;
use std::test::Fail;

#[test]
fn not_named_once(rt: HostRuntime) -> Result<(), Fail> {
    let heap = rt.alloc();
    assert_eq!(rt;
        term_refused(heap, &[unit(), unit()])?,
        (11, 2),
        "named by none"
    );
    assert_eq!(rt;
        term_refused(heap, &[unit(), e(19, 0, 0, 0)])?,
        (11, 2),
        "an application names one twice"
    );
    assert_eq!(rt;
        term_refused(heap, &[unit(), e(23, 0, 0, 0), e(19, 1, 0, 0)])?,
        (11, 2),
        "named by two"
    );
    assert_eq!(rt;
        term_refused(heap, &[unit(), unit(), e(23, 0, 0, 0)])?,
        (11, 3)
    );
    assert_eq!(rt;
        term_refused(heap, &[unit(), e(23, 0, 0, 0), unit(), e(23, 1, 0, 0)])?,
        (11, 4)
    );
    assert_eq!(rt;
        term_refused(heap, &[e(17, 5, 0, 0), e(19, 0, 0, 0)])?,
        (11, 2),
        "use before binding"
    );
    assert_eq!(rt;
        term_refused(heap, &[unit(), e(19, 0, 0, 0), e(9, 0, 0, 0)])?,
        (7, 4),
        "entries before use"
    );
    Ok(())
}

#[test]
fn not_bound(rt: HostRuntime) -> Result<(), Fail> {
    let heap = rt.alloc();
    assert_eq!(rt;
        term_refused(heap, &[e(17, 0, 0, 0)])?,
        (12, 2),
        "the only term"
    );
    assert_eq!(rt;
        term_refused(heap, &[e(17, 1, 0, 0), e(18, 0, 0, 0)])?,
        (12, 2)
    );
    assert_eq!(rt;
        term_refused(heap, &[e(17, 0, 0, 0), e(23, 0, 0, 0)])?,
        (12, 2)
    );
    assert_eq!(rt;
        term_refused(heap, &[e(17, 0, 0, 0), unit(), e(24, 0, 1, 0)])?,
        (12, 2),
        "let does not bind in its first"
    );
    assert_eq!(rt;
        term_refused(heap, &[unit(), e(17, 0, 0, 0), e(24, 0, 1, 0)])?,
        (0, 0),
        "it binds in its second"
    );
    assert_eq!(rt;
        term_refused(heap, &[unit(), e(17, 1, 0, 0), e(24, 0, 1, 0)])?,
        (12, 3)
    );
    assert_eq!(rt;
        term_refused(
            heap,
            &[
                e(17, 0, 0, 0),
                e(18, 0, 0, 0),
                e(17, 0, 0, 0),
                e(19, 1, 2, 0),
            ],
        )?,
        (12, 4),
        "bound on the other side"
    );
    Ok(())
}

#[test]
fn bound_deep(rt: HostRuntime) -> Result<(), Fail> {
    let heap = rt.alloc();
    assert_eq!(rt;
        term_refused(
            heap,
            &[
                e(17, 1, 0, 0),
                e(18, 0, 0, 0),
                e(23, 1, 0, 0),
                e(18, 2, 0, 0),
            ],
        )?,
        (0, 0)
    );
    assert_eq!(rt;
        term_refused(
            heap,
            &[
                e(17, 2, 0, 0),
                e(18, 0, 0, 0),
                e(23, 1, 0, 0),
                e(18, 2, 0, 0),
            ],
        )?,
        (12, 2)
    );
    Ok(())
}
