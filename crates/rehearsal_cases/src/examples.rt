//! The stored examples.
use jobs::reader::image_length;
use jobs::writer::write;
use masks::Mask;
use run_words::{Pace, Spoken};
use std::alloc::{AllocError, Global};
use std::test::Fail;
use tables::entry::{Counts, Entry, entry_of as e};

// The lines of a rehearsal of a job with one base type, under the mask of width 8; empty if the job is refused.
fn lines(
    heap: Global,
    terms: &[Entry],
    role: u64,
    budget: u64,
    places: u16,
) -> Result<String, AllocError> {
    if terms.len() > 1024 {
        return Ok(String::new(heap));
    }
    let mut types = [Entry::default(); 1025];
    types[0] = e(1, 0, 0, 0);
    let counts = Counts {
        types: 1,
        terms: terms.len() as u32,
    };
    let mut image = vec![in heap; 0u8; image_length(counts)]?;
    if write(
        &Mask { width: 8 },
        counts,
        &types,
        terms,
        image.as_mut_slice(),
    )
    .is_err()
    {
        return Ok(String::new(heap));
    }
    let mut input = Vec::new(heap);
    input.extend_from_slice(&[0, 8])?;
    input.extend_from_slice(image.as_slice())?;
    input.extend_from_slice(&role.to_le_bytes())?;
    input.extend_from_slice(&budget.to_le_bytes())?;
    input.extend_from_slice(&places.to_le_bytes())?;
    let rehearsal = Spoken {
        input: input.as_slice(),
        pace: Pace::EachStep,
    };
    format!(in heap; "{rehearsal}")
}

#[test]
fn a_check_passes(rt: HostRuntime) -> Result<(), Fail> {
    let job = [e(16, 0, 0, 0), e(21, 0, 0, 4), e(22, 1, 0, 0)];
    let text = lines(rt.alloc(), &job, 4, 5, 4)?;
    assert_eq!(rt;
        text.as_str(),
        "job: types 1, terms 3\nsufficient bound: 4\nnecessary bound: 4\nstep 0: entry 2, check of 1, 3 of 4 places used\nstep 1: entry 3, unit over 0, 4 of 4 places used\nend: finished after 1 steps\n"
    );
    Ok(())
}

#[test]
fn a_check_finds_the_table_full(rt: HostRuntime) -> Result<(), Fail> {
    let job = [e(16, 0, 0, 0), e(21, 0, 0, 4), e(22, 1, 0, 0)];
    let text = lines(rt.alloc(), &job, 4, 5, 3)?;
    assert_eq!(rt;
        text.as_str(),
        "job: types 1, terms 3\nsufficient bound: 4\nnecessary bound: 4\nstep 0: entry 2, check of 1, 3 of 3 places used\nend: table full after 0 steps\n"
    );
    Ok(())
}

#[test]
fn a_check_is_refused(rt: HostRuntime) -> Result<(), Fail> {
    let job = [e(16, 0, 0, 0), e(21, 0, 0, 4), e(22, 1, 0, 0)];
    let text = lines(rt.alloc(), &job, 3, 5, 4)?;
    assert_eq!(rt;
        text.as_str(),
        "job: types 1, terms 3\nsufficient bound: 4\nnecessary bound: 4\nstep 0: entry 2, check of 1, 3 of 4 places used\nend: role fault at entry 2, guard 4, context 3 after 0 steps\n"
    );
    Ok(())
}

#[test]
fn fix_of_the_identity(rt: HostRuntime) -> Result<(), Fail> {
    let job = [e(17, 0, 0, 0), e(18, 0, 0, 0), e(20, 1, 0, 0)];
    let text = lines(rt.alloc(), &job, 0, 5, 3)?;
    assert_eq!(rt;
        text.as_str(),
        "job: types 1, terms 3\nsufficient bound: 0\nnecessary bound: 0\nstep 0: entry 2, fix of 1, 3 of 3 places used\nstep 1: entry 2, fix of 1, 3 of 3 places used\nstep 2: entry 2, fix of 1, 3 of 3 places used\nstep 3: entry 2, fix of 1, 3 of 3 places used\nstep 4: entry 2, fix of 1, 3 of 3 places used\nstep 5: entry 2, fix of 1, 3 of 3 places used\nend: going after 5 steps\n"
    );
    Ok(())
}

#[test]
fn a_unit_applied_to_a_unit(rt: HostRuntime) -> Result<(), Fail> {
    let job = [e(16, 0, 0, 0), e(16, 0, 0, 0), e(19, 0, 1, 0)];
    let text = lines(rt.alloc(), &job, 0, 5, 3)?;
    assert_eq!(rt;
        text.as_str(),
        "job: types 1, terms 3\nsufficient check refused: number 20, place 3\nnecessary check refused: number 20, place 3\nstep 0: entry 2, application of 0 to 1, 3 of 3 places used\nend: shape fault at entry 2 after 0 steps\n"
    );
    Ok(())
}

#[test]
fn a_let_of_two_checks(rt: HostRuntime) -> Result<(), Fail> {
    let job = [
        e(16, 0, 0, 0),
        e(21, 0, 0, 1),
        e(22, 1, 0, 0),
        e(16, 0, 0, 0),
        e(21, 3, 0, 2),
        e(22, 4, 0, 0),
        e(24, 2, 5, 0),
    ];
    let text = lines(rt.alloc(), &job, 3, 9, 12)?;
    assert_eq!(rt;
        text.as_str(),
        "job: types 1, terms 7\nsufficient bound: 3\nnecessary bound: 3\nstep 0: entry 6, let of 2 in 5, 7 of 12 places used\nstep 1: entry 8, let of 7 in 5, 9 of 12 places used\nstep 2: entry 5, check of 4, 9 of 12 places used\nstep 3: entry 9, unit over 3, 10 of 12 places used\nend: finished after 3 steps\n"
    );
    Ok(())
}

// restrict 7. let a = (λ c. raise 2. check c) {2}[λ s. [s]]; let b = (λ d. raise 4. check d) {4}[7]; (λ f. λ x. f x) a b
#[test]
fn a_change_of_domain_finishes_after_a_dozen_steps(rt: HostRuntime) -> Result<(), Fail> {
    let job = [
        e(17, 0, 0, 0),
        e(22, 0, 0, 0),
        e(25, 1, 0, 2),
        e(18, 2, 0, 0),
        e(17, 0, 0, 0),
        e(23, 4, 0, 0),
        e(18, 5, 0, 0),
        e(21, 6, 0, 2),
        e(19, 3, 7, 0),
        e(17, 0, 0, 0),
        e(22, 9, 0, 0),
        e(25, 10, 0, 4),
        e(18, 11, 0, 0),
        e(16, 1, 0, 7),
        e(21, 13, 0, 4),
        e(19, 12, 14, 0),
        e(17, 1, 0, 0),
        e(17, 0, 0, 0),
        e(19, 16, 17, 0),
        e(18, 18, 0, 0),
        e(18, 19, 0, 0),
        e(17, 1, 0, 0),
        e(19, 20, 21, 0),
        e(17, 0, 0, 0),
        e(19, 22, 23, 0),
        e(24, 15, 24, 0),
        e(24, 8, 25, 0),
        e(26, 26, 0, 7),
    ];
    let text = lines(rt.alloc(), &job, 1, 50, 62)?;
    assert_eq!(rt;
        text.as_str(),
        "job: types 1, terms 28\nsufficient check refused: number 23, place 2\nnecessary check refused: number 23, place 2\nstep 0: entry 27, restrict by 7 of 26, 28 of 62 places used\nstep 1: entry 31, restrict by 7 of 30, 32 of 62 places used\nstep 2: entry 35, restrict by 7 of 34, 36 of 62 places used\nstep 3: entry 37, restrict by 7 of 36, 38 of 62 places used\nstep 4: entry 41, restrict by 7 of 40, 42 of 62 places used\nstep 5: entry 45, restrict by 7 of 44, 46 of 62 places used\nstep 6: entry 49, restrict by 7 of 48, 50 of 62 places used\nstep 7: entry 51, restrict by 7 of 50, 52 of 62 places used\nstep 8: entry 53, restrict by 7 of 52, 54 of 62 places used\nstep 9: entry 57, restrict by 7 of 56, 58 of 62 places used\nstep 10: entry 59, restrict by 7 of 58, 60 of 62 places used\nstep 11: entry 61, restrict by 7 of 60, 62 of 62 places used\nstep 12: entry 60, unit over 13, 62 of 62 places used\nend: finished after 12 steps\n"
    );
    Ok(())
}
