//! What stands in a table.
ghost use Rattle.std.specs.Prelude.{◌≡◌};

/// One entry of a table. What its operands say goes by its tag.
#[derive(Clone, Copy, PartialEq, Eq, Debug, Default)]
pub struct Entry {
    pub tag: u8,
    pub first: u32,
    pub second: u32,
    pub third: u64,
}

/// The entry of a tag and three operands.
pub fn entry_of(tag: u8, first: u32, second: u32, third: u64) -> Entry
    ensures { result ≡ record { tag = tag; first = first; second = second; third = third } }
{
    Entry {
        tag,
        first,
        second,
        third,
    }
}

/// How many types and how many terms a job has.
#[derive(Clone, Copy, PartialEq, Eq, Debug)]
pub struct Counts {
    pub types: u32,
    pub terms: u32,
}
