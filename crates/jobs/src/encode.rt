//! Bytes from entries.
ghost use Rattle.std.specs.Prelude.{◌≡◌, ◌+◌, ◌*◌, ◌^◌, ◌<◌, ◌≤◌, ◌++◌, length, take};
ghost use Rattle.jobs.specs.Image.{image, image_length, operand_bytes, tags};
ghost use Rattle.std.specs.List.{flat_map};

use codes::bytes::{bytes16, bytes32, bytes64};
use tables::entry::Entry;

// Writes bytes from place `p` on.
fn put<const N: usize>(out: &mut [u8], p: usize, bytes: [u8; N])
    requires { p + N ≤ length out.old }
    ensures { take (p + N) out.new ≡ take p out.old ++ bytes.entry }
{
    out[p..p + N].copy_from_slice(&bytes);
}

// Writes the operands of an entry into the 16 bytes from place `p` on.
fn put_operands(out: &mut [u8], p: usize, e: Entry)
    requires { p + 16 ≤ length out.old }
    ensures { take (p + 16) out.new ≡ take p out.old ++ operand_bytes e }
{
    put(out, p, bytes32(e.first));
    put(out, p + 4, bytes32(e.second));
    put(out, p + 8, bytes64(e.third));
}

// Writes the tags of a table from place `p` on.
fn put_tags(out: &mut [u8], p: usize, table: &[Entry])
    requires { p + length table.now ≤ length out.old }
    ensures { take (p + length table.now) out.new ≡ take p out.old ++ tags table.now }
{
    for (k, e) in table.iter().enumerate() {
        out[p + k] = e.tag;
    }
}

// Writes the operands of a table from place `p` on.
fn put_table(out: &mut [u8], p: usize, table: &[Entry])
    requires { p + 16 * length table.now ≤ length out.old }
    ensures { take (p + 16 * length table.now) out.new ≡ take p out.old ++ flat_map operand_bytes table.now }
{
    for (k, e) in table.iter().enumerate() {
        put_operands(out, p + 16 * k, *e);
    }
}

/// Writes the image of two tables into an output of its length.
pub(crate) fn encode(types: &[Entry], terms: &[Entry], out: &mut [u8])
    requires types_few { length types.now ≤ 512 }
    requires terms_few { length terms.now ≤ 1024 }
    requires long { length out.old ≡ image_length (length types.now) (length terms.now) }
    ensures { out.new ≡ image types.now terms.now }
{
    let t = types.len();
    let n = terms.len();
    put(out, 0, bytes16(t as u16));
    put(out, 2, bytes16(n as u16));
    put_tags(out, 4, types);
    put_tags(out, 4 + t, terms);
    put_table(out, 4 + t + n, types);
    put_table(out, 4 + t + n + 16 * t, terms);
}
