//! A let of two checks, an abstraction applied, and what is refused.
use aloud::Spoken;
use jobs::reader::image_length;
use jobs::writer::write;
use masks::Mask;
use std::alloc::{AllocError, Global};
use std::test::Fail;
use tables::entry::{Counts, Entry, entry_of as e};

// The listing of a job under the mask of width 8; empty if the job is refused.
fn listed(
    heap: Global,
    counts: Counts,
    types: &[Entry],
    terms: &[Entry],
) -> Result<String, AllocError> {
    let mut image = vec![in heap; 0u8; image_length(counts)]?;
    if write(
        &Mask { width: 8 },
        counts,
        types,
        terms,
        image.as_mut_slice(),
    )
    .is_err()
    {
        return Ok(String::new(heap));
    }
    let mut input = Vec::new(heap);
    input.extend_from_slice(&[0, 8])?;
    input.extend_from_slice(image.as_slice())?;
    let job = Spoken(input.as_slice());
    format!(in heap; "{job}")
}

#[test]
fn a_let_of_two_checks(rt: HostRuntime) -> Result<(), Fail> {
    let types = [Entry::default(); 7];
    let unit = e(16, 0, 0, 0);
    let terms = [
        unit,
        e(21, 0, 0, 1),
        e(22, 1, 0, 0),
        unit,
        e(21, 3, 0, 2),
        e(22, 4, 0, 0),
        e(24, 2, 5, 0),
    ];
    let text = listed(rt.alloc(), Counts { types: 0, terms: 7 }, &types, &terms)?;
    let wanted =
        "job: types 0, terms 7\nplace 6: let\n  place 2: check\n    place 1: guard, role 1\n      place 0: Unit value\n  place 5: check\n    place 4: guard, role 2\n      place 3: Unit value\n";
    assert_eq!(rt; text.as_str(), wanted);
    Ok(())
}

#[test]
fn an_abstraction_applied(rt: HostRuntime) -> Result<(), Fail> {
    let types = [
        e(1, 0, 0, 0),
        e(4, 0, 0, 3),
        Entry::default(),
        Entry::default(),
        Entry::default(),
        Entry::default(),
    ];
    let terms = [
        e(17, 0, 0, 0),
        e(18, 0, 1, 0),
        e(16, 1, 0, 9),
        e(19, 1, 2, 0),
    ];
    let text = listed(rt.alloc(), Counts { types: 2, terms: 4 }, &types, &terms)?;
    let wanted =
        "job: types 2, terms 4\nplace 0: type Unit\nplace 1: type (computation of Unit, role 3)\nplace 5: application\n  place 3: abstraction, sufficient claim (computation of Unit, role 3), necessary claim Unit\n    place 2: variable, passes over 0 binders\n  place 4: Number value 9\n";
    assert_eq!(rt; text.as_str(), wanted);
    Ok(())
}

#[test]
fn what_is_refused(rt: HostRuntime) -> Result<(), Fail> {
    let heap = rt.alloc();
    let empty = Spoken(&[0, 8]);
    let short = format!(in heap; "{empty}")?;
    assert_eq!(rt;
        short.as_str(),
        "refused: number 3, place 0, the image has fewer than four bytes\n"
    );
    let unsound = Spoken(&[0, 0]);
    let text = format!(in heap; "{unsound}")?;
    assert_eq!(rt;
        text.as_str(),
        "refused: number 2, place 0, the scheme is not sound\n"
    );
    let mut image = [0u8; 40];
    image[1] = 8;
    image[4] = 2;
    image[6] = 16;
    image[7] = 19;
    let twice = Spoken(&image);
    let named = format!(in heap; "{twice}")?;
    assert_eq!(rt;
        named.as_str(),
        "refused: number 11, place 0, the term is not named exactly once\n"
    );
    let kind = Spoken(&[9, 9]);
    let block = format!(in heap; "{kind}")?;
    assert_eq!(rt;
        block.as_str(),
        "refused: number 1, place 0, the scheme block is not whole or of no known kind\n"
    );
    Ok(())
}
