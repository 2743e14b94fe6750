//! Images that are refused before an entry is looked at.
use crate::bench::*;
use std::test::Fail;
use tables::entry::{Counts, Entry};

#[test]
fn fewer_than_four_bytes(rt: HostRuntime) {
    assert_eq!(rt; told(&[]), (3, 0), "the empty image");
    assert_eq!(rt; told(&[0]), (3, 0));
    assert_eq!(rt; told(&[0, 0]), (3, 0));
    assert_eq!(rt; told(&[0, 0, 1]), (3, 0));
}

#[test]
fn counts_outside_the_limits(rt: HostRuntime) {
    assert_eq!(rt; told(&[0, 0, 0, 0]), (4, 0), "no term");
    assert_eq!(rt; told(&[1, 2, 1, 0]), (4, 0), "513 types");
    assert_eq!(rt; told(&[0, 0, 1, 4]), (4, 0), "1,025 terms");
    assert_eq!(rt; told(&[255, 255, 255, 255]), (4, 0));
    assert_eq!(rt; told(&[0, 2, 1, 0]), (5, 0), "512 types, and no entry");
    assert_eq!(rt; told(&[0, 0, 0, 4]), (5, 0), "1,024 terms, and no entry");
}

#[test]
fn lengths_that_differ(rt: HostRuntime) -> Result<(), Fail> {
    let mut image = lay(rt.alloc(), &[base()], &[unit()])?;
    assert_eq!(rt; told(image.as_slice()), (0, 0));
    image.push(0)?;
    assert_eq!(rt; told(image.as_slice()), (5, 0), "a byte too many");
    let _last = image.pop();
    let _byte = image.pop();
    assert_eq!(rt; told(image.as_slice()), (5, 0), "a byte too few");
    Ok(())
}

#[test]
fn unsound_schemes(rt: HostRuntime) {
    assert_eq!(rt; number_under(0, &[]), 2);
    assert_eq!(rt; number_under(65, &[0, 0, 1, 0]), 2);
    assert_eq!(rt; number_under(1, &[]), 3);
    assert_eq!(rt; number_under(64, &[0, 0, 1, 0]), 5);
}

#[test]
fn tables_without_room(rt: HostRuntime) -> Result<(), Fail> {
    let image = lay(rt.alloc(), &[base(), base()], &[unit(), e(23, 0, 0, 0)])?;
    let mut four = [Entry::default(); 4];
    let mut three = [Entry::default(); 3];
    let mut two = [Entry::default(); 2];
    let mut one = [Entry::default(); 1];
    assert_eq!(rt; told_with(image.as_slice(), &mut three, &mut two), (6, 0));
    assert_eq!(rt; told_with(image.as_slice(), &mut four, &mut one), (6, 0));
    assert_eq!(rt; told_with(image.as_slice(), &mut four, &mut two), (0, 0));
    let mut most = vec![in rt.alloc(); Entry::default(); 16384]?;
    let mut above = vec![in rt.alloc(); Entry::default(); 16385]?;
    assert_eq!(rt;
        told_with(image.as_slice(), most.as_mut_slice(), &mut two),
        (0, 0)
    );
    assert_eq!(rt;
        told_with(image.as_slice(), above.as_mut_slice(), &mut two),
        (6, 0)
    );
    assert_eq!(rt;
        told_with(image.as_slice(), &mut four, most.as_mut_slice()),
        (0, 0)
    );
    assert_eq!(rt;
        told_with(image.as_slice(), &mut four, above.as_mut_slice()),
        (6, 0)
    );
    Ok(())
}

#[test]
fn outputs_of_another_length(rt: HostRuntime) {
    let types = [base(), Entry::default()];
    let terms = [unit()];
    let counts = Counts { types: 1, terms: 1 };
    let mut long = [9u8; 39];
    let mut right = [9u8; 38];
    let mut short = [9u8; 37];
    assert_eq!(rt; write_told(counts, &types, &terms, &mut long), (13, 0));
    assert_eq!(rt; write_told(counts, &types, &terms, &mut short), (13, 0));
    assert_eq!(rt; long[0], 9, "nothing is written");
    assert_eq!(rt; write_told(counts, &types, &terms, &mut right), (0, 0));
    assert_eq!(rt; right[4], 1);
    let none = Counts {
        types: u32::MAX,
        terms: u32::MAX,
    };
    assert_eq!(rt; write_told(none, &types, &terms, &mut long), (4, 0));
}
