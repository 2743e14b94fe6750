//! Tables that, written out, are larger than any table.
use crate::bench::{MASK, e, start};
use roles::fault::Fault;
use tables::entry::Entry;

// A job of 1,024 terms: units around a unit.
fn nested(terms: &mut [Entry; 16384]) {
    terms[0] = e(16, 0, 0, 0);
    for (below, term) in terms[1..1024].iter_mut().enumerate() {
        *term = e(23, below as u32, 0, 0);
    }
}

// An abstraction over a body in which each entry names the one below twice, applied to a unit.
fn doubled(terms: &mut [Entry; 16384]) {
    terms[0] = e(17, 0, 0, 0);
    for (below, term) in terms[1..1021].iter_mut().enumerate() {
        *term = e(19, below as u32, below as u32, 0);
    }
    terms[1021] = e(18, 1020, 0, 0);
    terms[1022] = e(16, 0, 0, 0);
    terms[1023] = e(19, 1021, 1022, 0);
}

// The condition's number of an advance in the doubled table.
fn told() -> u8 {
    let mut terms = [Entry::default(); 16384];
    nested(&mut terms);
    let Ok(mut run) = start(&terms, 1024, 0) else {
        return 254;
    };
    doubled(&mut terms);
    let told = run.advance(&MASK, &mut terms, 1);
    let _look = run.close();
    match told {
        Err(fault) => fault.number(),
        Ok(progress) => progress.condition.number(),
    }
}

#[test]
fn a_tree_larger_than_any_table_is_a_full_table_at_once(rt: HostRuntime) {
    assert_eq!(rt; told(), 4);
}
