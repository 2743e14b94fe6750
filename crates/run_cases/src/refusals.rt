//! What starts and advances refuse.
use crate::bench::{MASK, e, play, start};
use masks::Mask;
use roles::fault::Fault;
use runs::fault::RunFault;
use runs::run::Progress;
use tables::entry::Entry;

// Stays: numbers here and in the other cases of runs, so that a case is one line and keeps its value.
// The number of a refusal, or 0.
fn number(told: Result<Progress, RunFault>) -> u8 {
    match told {
        Ok(_) => 0,
        Err(fault) => fault.number(),
    }
}

// Five advances of one run: under an unsound scheme, one whose roles are fewer, past the limit of steps, and before and after the end.
fn refused() -> [u8; 5] {
    let mut terms = [
        e(16, 0, 0, 0),
        e(21, 0, 0, 4),
        e(22, 1, 0, 0),
        Entry::default(),
    ];
    let Ok(mut run) = start(&terms, 3, 4) else {
        return [0; 5];
    };
    let unsound = run.advance(&Mask { width: 0 }, &mut terms, 1);
    let no_role = run.advance(&Mask { width: 2 }, &mut terms, 1);
    let too_many = run.advance(&MASK, &mut terms, 1 << 32);
    let made = run.advance(&MASK, &mut terms, 1);
    let ended = run.advance(&MASK, &mut terms, 1);
    let _look = run.close();
    [unsound, no_role, too_many, made, ended].map(number)
}

// The number of the refusal of an advance of a run of a check in another table.
fn in_table(table: &mut [Entry]) -> u8 {
    let terms = [e(16, 0, 0, 0), e(21, 0, 0, 4), e(22, 1, 0, 0)];
    let Ok(mut run) = start(&terms, 3, 4) else {
        return 255;
    };
    let told = run.advance(&MASK, table, 1);
    let _look = run.close();
    number(told)
}

#[test]
fn each_refusal_has_its_number(rt: HostRuntime) {
    assert_eq!(rt; refused(), [2, 30, 34, 0, 33]);
}

#[test]
fn a_start_asks_form_and_role(rt: HostRuntime) {
    assert_eq!(rt; play(&mut [e(17, 0, 0, 0)], 1, 0, 1)[0], 12);
    assert_eq!(rt; play(&mut [e(16, 0, 0, 0)], 1, 256, 1)[0], 30);
    assert_eq!(rt; play(&mut [e(16, 0, 0, 0)], 0, 0, 1)[0], 4);
}

#[test]
fn a_table_that_cannot_serve_is_32(rt: HostRuntime) {
    assert_eq!(rt;
        in_table(&mut [e(16, 0, 0, 0), e(23, 0, 0, 0)]),
        32,
        "too short"
    );
    assert_eq!(rt;
        in_table(&mut [e(16, 0, 0, 0), e(17, 0, 0, 0), e(23, 1, 0, 0)]),
        32,
        "not closed"
    );
    assert_eq!(rt;
        in_table(&mut [e(16, 0, 0, 0), e(21, 0, 0, 256), e(22, 1, 0, 0)]),
        32,
        "no role"
    );
    assert_eq!(rt;
        in_table(&mut [e(17, 0, 0, 0), e(18, 0, 900, 900), e(23, 1, 0, 0)]),
        0,
        "claims are not looked at"
    );
}
