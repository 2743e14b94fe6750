ghost use Rattle.std.specs.Prelude.{◌≡◌, true, false, if◌then◌else◌, Some, None, Ok, Err};
ghost use Rattle.blocks.specs.Format.{after_rows, block_by, block_of, has_rows, hierarchy_in, ranked, rows_after, rows_in, told};
ghost use Rattle.blocks.specs.Numbers.{number_of_kind};
ghost use Rattle.blocks.specs.Readings.{SchemeReadings};

use crate::block::{Block, BlockFault, Kind};
use codes::bytes::read_code;
use hierarchies::Hierarchy;
use ladders::Ladder;
use masks::Mask;
use pairs::Pair;

// How many rows follow a size.
fn rows_after(size: u8) -> usize
    ensures { result ≡ rows_after size }
{
    if size <= 64 { size as usize } else { 0 }
}

// The 64 rows of a hierarchy, if all that follow the size are there; the others are 0.
fn read_rows(size: u8, bytes: &[u8]) -> Option<[u64; 64]>
    ensures { result ≡ (if has_rows size bytes.now then Some (rows_in size bytes.now) else None) }
{
    let count = rows_after(size);
    let mut rows = [0; 64];
    for (i, row) in rows[..count].iter_mut().enumerate() {
        *row = read_code(bytes, 8 * i)?;
    }
    Some(rows)
}

// A hierarchy, and the bytes after its rows.
fn read_hierarchy(size: u8, bytes: &[u8]) -> Result<(Hierarchy, &[u8]), BlockFault>
    ensures { elim result [ Ok p ↦ (has_rows size bytes.now ≡ true) × (p.0 ≡ hierarchy_in size bytes.now) × (p.1.now ≡ after_rows size bytes.now) | Err e ↦ (has_rows size bytes.now ≡ false) × (e ≡ BlockFault.NotWhole) ] }
{
    let rows = read_rows(size, bytes).ok_or(BlockFault::NotWhole)?;
    let hierarchy = Hierarchy {
        count: u32::from(size),
        rows,
    };
    Ok((hierarchy, &bytes[8 * rows_after(size)..]))
}

// The top rank that follows a hierarchy.
fn read_ranked(first: Hierarchy, bytes: &[u8]) -> Result<(Block, &[u8]), BlockFault>
    ensures { told result (λ p. record { block = p.0; rest = p.1.now }) ≡ ranked first bytes.now }
{
    let (top, rest) = bytes.split_first().ok_or(BlockFault::NotWhole)?;
    let second = Ladder { top: *top };
    Ok((Block::Ranked(Pair { first, second }), rest))
}

// A size and what follows it, by kind.
fn read_kind(kind: Kind, size: u8, bytes: &[u8]) -> Result<(Block, &[u8]), BlockFault>
    ensures { told result (λ p. record { block = p.0; rest = p.1.now }) ≡ block_by (number_of_kind kind) size bytes.now }
{
    match kind {
        Kind::Mask => Ok((
            Block::Mask(Mask {
                width: u32::from(size),
            }),
            bytes,
        )),
        Kind::Ladder => Ok((Block::Ladder(Ladder { top: size }), bytes)),
        Kind::Hierarchy => {
            let (rows, rest) = read_hierarchy(size, bytes)?;
            Ok((Block::Hierarchy(rows), rest))
        }
        Kind::Ranked => {
            let (rows, rest) = read_hierarchy(size, bytes)?;
            read_ranked(rows, rest)
        }
    }
}

/// Reads a scheme block; gives the scheme and the bytes after the block.
pub fn read_block(bytes: &[u8]) -> Result<(Block, &[u8]), BlockFault>
    ensures { told result (λ p. record { block = p.0; rest = p.1.now }) ≡ block_of bytes.now }
{
    let [kind, size, rest @ ..] = bytes else {
        return Err(BlockFault::NotWhole);
    };
    read_kind(Kind::try_from(*kind)?, *size, rest)
}

/// What the kinds answer on small examples.
pub fn readings()
    ensures { SchemeReadings }
{}
