//! Entries from bytes.
ghost use Rattle.std.specs.Prelude.{◌≡◌, ◌+◌, ◌*◌, ◌<◌, ◌≤◌, ◌++◌, length, take, drop};
ghost use Rattle.jobs.specs.Image.{entries, entry_at, image_length, terms_in, types_in};

use tables::entry::{Counts, Entry};

/// The `N` bytes from place `p` on.
pub(crate) fn bytes_at<const N: usize>(bytes: &[u8], p: usize) -> [u8; N]
    requires { p + N ≤ length bytes.now }
    ensures { result ≡ take N (drop p bytes.now) }
{
    let mut chunk = [0u8; N];
    chunk.copy_from_slice(&bytes[p..p + N]);
    chunk
}

// Entry `k` of a table, from its tags and its operands.
fn entry(tags: &[u8], operands: &[u8], k: usize) -> Entry
    requires tag { k < length tags.now }
    requires operands { 16 * k + 16 ≤ length operands.now }
    ensures { result ≡ entry_at tags.now operands.now k }
{
    let p = 16 * k;
    Entry {
        tag: tags[k],
        first: u32::from_le_bytes(bytes_at(operands, p)),
        second: u32::from_le_bytes(bytes_at(operands, p + 4)),
        third: u64::from_le_bytes(bytes_at(operands, p + 8)),
    }
}

// Fills a table.
fn fill(table: &mut [Entry], tags: &[u8], operands: &[u8])
    requires tags { length table.old ≤ length tags.now }
    requires operands { 16 * length table.old ≤ length operands.now }
    ensures { table.new ≡ entries tags.now operands.now (length table.old) }
{
    for (k, place) in table.iter_mut().enumerate() {
        *place = entry(tags, operands, k);
    }
}

/// Fills the first places of two tables with the entries of an image of the right length.
pub(crate) fn decode(image: &[u8], counts: Counts, types: &mut [Entry], terms: &mut [Entry])
    requires long { length image.now ≡ image_length counts.types counts.terms }
    requires types { counts.types ≤ length types.old }
    requires terms { counts.terms ≤ length terms.old }
    ensures types { types.new ≡ types_in image.now counts.types counts.terms ++ drop counts.types types.old }
    ensures terms { terms.new ≡ terms_in image.now counts.types counts.terms ++ drop counts.terms terms.old }
{
    let t = counts.types as usize;
    let n = counts.terms as usize;
    let operands = &image[4 + t + n..];
    fill(&mut types[..t], &image[4..], operands);
    fill(&mut terms[..n], &image[4 + t..], &operands[16 * t..]);
}
