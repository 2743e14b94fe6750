//! Small jobs.
use crate::bench::{e, play};
use tables::entry::Entry;

#[test]
fn a_unit_alone_is_finished_with_no_budget(rt: HostRuntime) {
    assert_eq!(rt;
        play(&mut [e(16, 0, 0, 0)], 1, 0, 0),
        [0, 0, 1, 0, 0, 0, 1, 0]
    );
}

#[test]
fn a_check_passes_faults_and_halts_for_places(rt: HostRuntime) {
    let job = [
        e(16, 0, 0, 0),
        e(21, 0, 0, 4),
        e(22, 1, 0, 0),
        Entry::default(),
    ];
    let mut terms = job;
    assert_eq!(rt; play(&mut terms, 3, 4, 9), [0, 1, 1, 0, 0, 0, 4, 3]);
    assert_eq!(rt; terms[3], e(23, 0, 0, 0));
    let mut terms = job;
    assert_eq!(rt; play(&mut terms, 3, 3, 9), [0, 0, 2, 2, 4, 3, 3, 2]);
    assert_eq!(rt; terms[3], Entry::default());
    let mut short = [e(16, 0, 0, 0), e(21, 0, 0, 4), e(22, 1, 0, 0)];
    assert_eq!(rt; play(&mut short, 3, 4, 9), [0, 0, 4, 0, 0, 0, 3, 2]);
    assert_eq!(rt; play(&mut short, 3, 4, 0), [0, 0, 0, 0, 0, 0, 3, 2]);
}

#[test]
fn fix_of_the_identity_turns_in_place(rt: HostRuntime) {
    let mut terms = [e(17, 0, 0, 0), e(18, 0, 0, 0), e(20, 1, 0, 0)];
    assert_eq!(rt; play(&mut terms, 3, 0, 5), [0, 5, 0, 0, 0, 0, 3, 2]);
}

#[test]
fn a_unit_applied_to_a_unit_has_a_wrong_shape(rt: HostRuntime) {
    let mut terms = [e(16, 0, 0, 0), e(16, 0, 0, 0), e(19, 0, 1, 0)];
    assert_eq!(rt; play(&mut terms, 3, 0, 5), [0, 0, 3, 2, 0, 0, 3, 2]);
}

#[test]
fn a_let_hands_over_what_is_inside(rt: HostRuntime) {
    // let x = check {1}[7]; [x], whose value is [7]
    let mut terms = [
        e(16, 1, 0, 7),
        e(21, 0, 0, 1),
        e(22, 1, 0, 0),
        e(17, 0, 0, 0),
        e(23, 3, 0, 0),
        e(24, 2, 4, 0),
        Entry::default(),
        Entry::default(),
        Entry::default(),
    ];
    assert_eq!(rt; play(&mut terms, 6, 1, 9), [0, 2, 1, 0, 0, 0, 9, 8]);
    assert_eq!(rt; terms[6], e(23, 0, 0, 0));
    assert_eq!(rt; terms[7], e(24, 6, 4, 0));
    assert_eq!(rt; terms[8], e(23, 0, 0, 0));
}

#[test]
fn raise_joins_and_restrict_meets_on_the_way(rt: HostRuntime) {
    let mut raised = [
        e(16, 0, 0, 0),
        e(21, 0, 0, 6),
        e(22, 1, 0, 0),
        e(25, 2, 0, 4),
    ];
    assert_eq!(rt; play(&mut raised, 4, 1, 9), [0, 0, 2, 2, 6, 5, 4, 3]);
    let mut kept = [
        e(16, 0, 0, 0),
        e(21, 0, 0, 6),
        e(22, 1, 0, 0),
        e(26, 2, 0, 2),
    ];
    assert_eq!(rt; play(&mut kept, 4, 255, 9), [0, 0, 2, 2, 6, 2, 4, 3]);
}
