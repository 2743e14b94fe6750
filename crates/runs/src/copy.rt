//! Replacing: the copy of a body with an entry for its variable. It goes over plain terms and knows no scheme.
ghost use Rattle.std.specs.Prelude.{◌≡◌, ◌+◌, ◌^◌, ◌<◌, ◌≤◌, min, length};
ghost use Rattle.runs.specs.Copy.{Copiable, Wrote, copied, count_of, renewal, second_of, third_of, within};

use crate::reach::Used;
use crate::room::Room;
use tables::entry::Entry;
use tables::operand::{ABSTRACTION, APPLICATION, GUARD, LET, RAISE, RESTRICT, binds, named_terms};

// Stays: one line that stands in `tables` and `checks` too, over a depth of another width and another bound. A shared one would take both.
// The depth within the term of that number that an entry names.
fn depth_within(tag: u8, number: u8, depth: u32) -> u32
    requires { depth + 1 < 2 ^ 32 }
    ensures { result ≡ within tag number depth }
{
    if binds(tag, number) { depth + 1 } else { depth }
}

fn kept_second(e: Entry, other: u32) -> u32
    ensures { result ≡ second_of e other }
{
    match e.tag {
        ABSTRACTION => e.second,
        APPLICATION | LET => other,
        _ => 0,
    }
}

fn kept_third(e: Entry) -> u64
    ensures { result ≡ third_of e }
{
    match e.tag {
        ABSTRACTION | GUARD | RAISE | RESTRICT => e.third,
        _ => 0,
    }
}

/// The entry over other operands.
pub(crate) fn renew(e: Entry, first: u32, other: u32) -> Entry
    ensures { result ≡ renewal e first other }
{
    Entry {
        tag: e.tag,
        first,
        second: kept_second(e, other),
        third: kept_third(e),
    }
}

/// What a copy puts in for a variable: one of the used entries.
#[derive(Clone, Copy)]
pub(crate) struct Putting<'a> {
    pub used: &'a Used<'a>,
    pub with: u32,
    ghost there: { with < length used.now.terms.now },
}

impl Putting<'_> {
    /// Copies entry `at` into the room, with what is put in for the variable at `depth`, and tells where the copy stands.
    /// What does not contain the variable is shared.
    pub(crate) fn copy(self, room: &mut Room, at: u32, depth: u32) -> u32
        requires form { Copiable self.used.now.terms.now depth at }
        requires fits { depth + at + 1 < 2 ^ 32 }
        requires room { room.old.filled + length (copied self.used.now.terms.now (room.old.base + room.old.filled) depth self.with at).entries ≤ length room.old.free.now }
        ensures { Wrote room.old room.new (copied self.entry.used.now.terms.now (room.old.base + room.old.filled) depth self.entry.with at) result }
    {
        if self.used.reach[at as usize] as u32 <= depth {
            return at;
        }
        let e = self.used.terms[at as usize];
        let n = named_terms(e.tag);
        if n == 0 {
            return self.with;
        }
        let a = self.copy(room, e.first, depth_within(e.tag, 0, depth));
        if n == 1 {
            return room.append(renew(e, a, 0));
        }
        let b = self.copy(room, e.second, depth_within(e.tag, 1, depth));
        room.append(renew(e, a, b))
    }

    /// How many places the copy takes, or `limit` if it takes more: the count stops there.
    pub(crate) fn count(self, at: u32, depth: u32, limit: u32) -> u32
        requires form { Copiable self.used.now.terms.now depth at }
        requires fits { depth + at + 1 < 2 ^ 32 }
        ensures { result ≡ min limit (count_of self.entry.used.now.terms.now depth self.entry.with at) }
    {
        if limit == 0 {
            return 0;
        }
        if depth >= self.used.reach[at as usize] as u32 {
            return 0;
        }
        let e = self.used.terms[at as usize];
        let n = named_terms(e.tag);
        if n == 0 {
            return 0;
        }
        let left = limit - 1;
        let a = self.count(e.first, depth_within(e.tag, 0, depth), left);
        if n == 1 {
            return a + 1;
        }
        let b = self.count(e.second, depth_within(e.tag, 1, depth), left - a);
        a + b + 1
    }
}
