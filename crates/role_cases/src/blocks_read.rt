//! Blocks, whole and not.
use blocks::block::Block;
use blocks::read::read_block;
use roles::fault::Fault;
use roles::scheme::Scheme;
use std::test::Fail;

// A hierarchy of two roles and a ladder with top rank 5, as a block.
const RANKED: [u8; 19] = [3, 2, 1, 0, 0, 0, 0, 0, 0, 0, 3, 0, 0, 0, 0, 0, 0, 0, 5];

// Stays: 0 for no refusal, as a verdict tells it.
// The number of the refusal, 0 if a block is read.
fn refusal(bytes: &[u8]) -> u8 {
    match read_block(bytes) {
        Ok(_) => 0,
        Err(fault) => fault.number(),
    }
}

// Is a block read, and is its scheme sound?
fn read_sound(bytes: &[u8]) -> Option<bool> {
    let (block, _) = read_block(bytes).ok()?;
    Some(block.sound())
}

// How many bytes follow the block.
fn left(bytes: &[u8]) -> Option<usize> {
    let (_, rest) = read_block(bytes).ok()?;
    Some(rest.len())
}

#[test]
fn what_is_no_block(rt: HostRuntime) {
    assert_eq!(rt; refusal(&[]), 1);
    assert_eq!(rt; refusal(&[0]), 1);
    assert_eq!(rt; refusal(&[1]), 1);
    assert_eq!(rt; refusal(&[4, 0]), 1);
    assert_eq!(rt; refusal(&[255, 8, 0, 0]), 1);
    assert_eq!(rt; refusal(&[3, 0]), 1, "the top rank is missing");
    assert_eq!(rt; refusal(&[3, 65]), 1);
    assert_eq!(rt;
        refusal(&[2, 1, 1, 0, 0, 0, 0, 0, 0]),
        1,
        "seven bytes of a row"
    );
}

#[test]
fn every_truncation_is_refused(rt: HostRuntime) {
    for n in 0..RANKED.len() {
        assert_eq!(rt; refusal(&RANKED[0..n]), 1);
    }
    assert_eq!(rt; refusal(&RANKED), 0);
}

#[test]
fn sizes_outside_the_limits_are_read_and_unsound(rt: HostRuntime) {
    assert_eq!(rt; read_sound(&[0, 0]), Some(false));
    assert_eq!(rt; read_sound(&[0, 1]), Some(true));
    assert_eq!(rt; read_sound(&[0, 64]), Some(true));
    assert_eq!(rt; read_sound(&[0, 65]), Some(false));
    assert_eq!(rt; read_sound(&[1, 0]), Some(false));
    assert_eq!(rt; read_sound(&[1, 255]), Some(true));
    assert_eq!(rt; read_sound(&[2, 0]), Some(false));
    assert_eq!(rt; read_sound(&[2, 65]), Some(false), "no rows follow 65");
    assert_eq!(rt; read_sound(&[2, 255]), Some(false));
    assert_eq!(rt; read_sound(&[3, 0, 5]), Some(false));
    assert_eq!(rt; read_sound(&RANKED), Some(true));
}

#[test]
fn what_follows_the_block_is_handed_back(rt: HostRuntime) {
    assert_eq!(rt; left(&[0, 8]), Some(0));
    assert_eq!(rt; left(&[0, 8, 7, 7, 7]), Some(3));
    assert_eq!(rt; left(&[2, 65, 1, 2]), Some(2));
    assert_eq!(rt; left(&RANKED), Some(0));
}

#[test]
fn rows_are_little_endian_and_the_others_0(rt: HostRuntime) -> Result<(), Fail> {
    let Ok((Block::Hierarchy(hierarchy), _)) = read_block(&[2, 1, 1, 2, 0, 0, 0, 0, 0, 128]) else {
        return Err(Fail::new("no hierarchy was read"));
    };
    assert_eq!(rt; hierarchy.rows[0], 0x8000_0000_0000_0201);
    assert_eq!(rt; hierarchy.rows[1], 0);
    assert_eq!(rt; hierarchy.rows[63], 0);
    Ok(())
}
