//! What the kinds answer on examples.
use crate::watch::Watch;
use hierarchies::Hierarchy;
use ladders::Ladder;
use masks::Mask;
use pairs::Pair;
use roles::scheme::Scheme;

// Three roles, each the senior of those before it.
fn line() -> Hierarchy {
    let mut rows = [0; 64];
    rows[0] = 1;
    rows[1] = 3;
    rows[2] = 7;
    Hierarchy { count: 3, rows }
}

#[test]
fn masks_compare_sets_of_bits(rt: HostRuntime) {
    let mask = Mask { width: 8 };
    assert!(rt; mask.dominates(6, 4));
    assert!(rt; !mask.dominates(4, 6));
    assert_eq!(rt; mask.join(1, 2), Some(3));
    assert_eq!(rt; mask.meet(6, 3), Some(2));
    assert_eq!(rt; mask.remainder(6, 4), Some(2));
    assert_eq!(rt; mask.join(256, 1), None);
    assert!(rt; !mask.dominates(256, 256));
}

#[test]
fn masks_are_sound_from_1_to_64(rt: HostRuntime) {
    assert!(rt; !Mask { width: 0 }.sound());
    assert!(rt; Mask { width: 1 }.sound());
    assert!(rt; Mask { width: 64 }.is_role(u64::MAX));
    assert!(rt; !Mask { width: 65 }.sound());
    assert_eq!(rt; Mask { width: 65 }.width(), 64);
    assert!(rt; !Mask { width: 0 }.is_role(0));
}

#[test]
fn ladders_compare_ranks(rt: HostRuntime) {
    let ladder = Ladder { top: 3 };
    assert!(rt; ladder.dominates(3, 3));
    assert!(rt; !ladder.dominates(1, 2));
    assert_eq!(rt; ladder.join(1, 3), Some(3));
    assert_eq!(rt; ladder.meet(1, 3), Some(1));
    assert_eq!(rt; ladder.remainder(3, 1), Some(3));
    assert_eq!(rt; ladder.remainder(2, 3), Some(0));
    assert_eq!(rt; ladder.remainder(4, 1), None);
    assert_eq!(rt; Ladder { top: 0 }.width(), 64);
    assert!(rt; Ladder { top: 255 }.is_role(255));
}

#[test]
fn hierarchies_hold_juniors(rt: HostRuntime) {
    let line = line();
    assert!(rt; line.sound());
    assert!(rt; !line.is_role(2));
    assert!(rt; line.is_role(0));
    assert!(rt; !line.is_role(8));
    assert_eq!(rt; line.remainder(7, 3), Some(7));
    assert_eq!(rt; line.remainder(3, 7), Some(0));
    assert_eq!(rt; line.join(1, 3), Some(3));
    assert_eq!(rt; line.width(), 3);
}

#[test]
fn a_hierarchy_with_a_bad_row_is_unsound(rt: HostRuntime) {
    let mut gap = line();
    gap.rows[2] = 6;
    assert!(rt; !gap.sound(), "row 2 holds role 1 but not its junior");
    let mut own = line();
    own.rows[0] = 0;
    assert!(rt; !own.sound(), "row 0 lacks its own bit");
    let mut wide = line();
    wide.rows[2] = 15;
    assert!(rt; !wide.sound(), "row 2 holds a bit from 3 up");
    let mut none = line();
    none.count = 0;
    assert!(rt; !none.sound());
    assert_eq!(rt; none.width(), 64);
}

#[test]
fn pairs_go_part_by_part(rt: HostRuntime) {
    let pair = Pair {
        first: line(),
        second: Ladder { top: 3 },
    };
    assert_eq!(rt; pair.code(3, 2), Some(770));
    assert_eq!(rt; pair.code(2, 2), None);
    assert!(rt; pair.dominates(770, 257));
    assert!(rt; !pair.dominates(770, 259));
    assert_eq!(rt; pair.remainder(1794, 770), Some(1792));
    assert_eq!(rt; pair.width(), 11);
    let wide = Pair {
        first: Mask { width: 57 },
        second: Ladder { top: 3 },
    };
    assert!(rt; !wide.sound(), "57 and 8 bits do not fit 64");
}

#[test]
fn pairs_take_kinds_from_outside_and_bottoms_that_are_not_0(rt: HostRuntime) {
    let pair = Pair {
        first: Watch,
        second: Pair {
            first: Ladder { top: 3 },
            second: Watch,
        },
    };
    assert!(rt; pair.sound());
    assert_eq!(rt; pair.width(), 16);
    assert_eq!(rt; pair.bottom(), 0x5005);
    assert!(rt; pair.is_role(0x5005));
    assert!(rt; !pair.is_role(0));
    assert!(rt; pair.dominates(0x9019, 0x5005));
    assert_eq!(rt; pair.remainder(0x9019, 0x9005), Some(0x5019));
    assert_eq!(rt; Watch.remainder(9, 5), Some(9));
}
