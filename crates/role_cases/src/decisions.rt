//! The dispatcher's decisions and their wording.
use dispatcher::decide::report;
use dispatcher::report::Decision;
use roles::fault::Fault;
use std::test::Fail;
use wording::Spoken;

// Stays: a number for each answer, so that a case is one line and keeps its value.
// 100 may start, 101 may not start, else the number of the refusal.
fn outcome(input: &[u8]) -> u8 {
    match report(input).decision {
        Ok(Decision::MayStart) => 100,
        Ok(Decision::MayNotStart) => 101,
        Err(refusal) => refusal.number(),
    }
}

// A mask of 8 bits, the role on duty and the bound, each in its low byte, and the byte after it.
fn mask8(on_duty: u8, duty_high: u8, bound: u8, bound_high: u8) -> [u8; 18] {
    [
        0, 8, on_duty, duty_high, 0, 0, 0, 0, 0, 0, bound, bound_high, 0, 0, 0, 0, 0, 0,
    ]
}

#[test]
fn the_role_on_duty_is_compared_with_the_bound(rt: HostRuntime) {
    assert_eq!(rt; outcome(&mask8(6, 0, 4, 0)), 100);
    assert_eq!(rt; outcome(&mask8(4, 0, 4, 0)), 100);
    assert_eq!(rt; outcome(&mask8(3, 0, 4, 0)), 101);
    assert_eq!(rt; outcome(&mask8(0, 0, 0, 0)), 100);
    assert_eq!(rt; outcome(&mask8(4, 0, 6, 0)), 101);
}

#[test]
fn bad_input_has_its_number(rt: HostRuntime) {
    assert_eq!(rt; outcome(&[]), 1);
    assert_eq!(rt; outcome(&[4, 0]), 1);
    assert_eq!(rt; outcome(&[0, 0]), 2, "unsound comes before too short");
    assert_eq!(rt; outcome(&[0, 8]), 3);
    assert_eq!(rt;
        outcome(&[0, 8, 0, 0, 0, 0, 0, 0, 0, 0, 0, 0, 0, 0, 0, 0, 0]),
        3
    );
    assert_eq!(rt;
        outcome(&[0, 8, 0, 0, 0, 0, 0, 0, 0, 0, 0, 0, 0, 0, 0, 0, 0, 0, 0]),
        5
    );
    assert_eq!(rt; outcome(&mask8(1, 0, 1, 1)), 9);
    assert_eq!(rt; outcome(&mask8(1, 1, 1, 0)), 30);
    assert_eq!(rt; outcome(&mask8(1, 1, 1, 1)), 9, "the bound is asked first");
}

#[test]
fn a_technician_can_read_it(rt: HostRuntime) -> Result<(), Fail> {
    let refused = Spoken(report(&[4, 0]));
    let text = format!(in rt.alloc(); "{refused}")?;
    assert_eq!(rt;
        text.as_str(),
        "decision: refused with number 1, there is no scheme of kind 4, kinds are 0 to 3\n"
    );
    let started = Spoken(report(&mask8(6, 0, 4, 0)));
    let lines = format!(in rt.alloc(); "{started}")?;
    assert_eq!(rt;
        lines.as_str(),
        "scheme: mask of 8 bits, sound, width 8\nrole on duty: 6\nbound: 4\ndecision: may start, the role on duty dominates the bound\n"
    );
    Ok(())
}
