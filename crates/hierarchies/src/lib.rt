//! Hierarchies: numbered roles with juniors; a role code holds the juniors of every role it holds.
#![tactic(auto)]

ghost use Rattle.std.specs.Prelude.{◌≡◌, ◌<◌, ◌≤◌};
ghost use Rattle.hierarchies.specs.Kind.{closed, hierarchy, joined_rows, keeps_row, row_sound};
ghost use Rattle.hierarchies.specs.Laws.{hierarchy_lawful};

use codes::bits::{covers, fits, holds, without};
use roles::scheme::Scheme;
use std::fmt;

/// A hierarchy of `count` roles. Bit j of row i says that role j is i or a junior of i.
#[derive(Clone, Copy)]
pub struct Hierarchy {
    pub count: u32,
    pub rows: [u64; 64],
}

impl Hierarchy {
    // If the code holds bit `j`, does it hold the whole row of `j`?
    fn keeps(&self, code: u64, j: u32) -> bool
        requires { j < 64 }
        ensures { result ≡ keeps_row self.now.rows code j }
    {
        !holds(code, j) || covers(code, self.rows[j as usize])
    }

    // Stays: that there are at most 64 roles is asked of methods and not of the type, since a hierarchy of more is a value too, an unsound one.
    // Does the code hold the whole row of each of its bits?
    fn is_closed(&self, code: u64) -> bool
        requires { self.now.count ≤ 64 }
        ensures { result ≡ closed self.now.count self.now.rows code }
    {
        (0..self.count).all(|j| self.keeps(code, j))
    }

    // Does row `i` hold its own bit, none from `count` up, and the whole row of each of its bits?
    fn row_is_sound(&self, i: u32) -> bool
        requires { (self.now.count ≤ 64) × (i < self.now.count) }
        ensures { result ≡ row_sound self.now.count self.now.rows i }
    {
        let row = self.rows[i as usize];
        holds(row, i) && fits(row, self.count) && self.is_closed(row)
    }

    // The rows of the code's bits, joined.
    fn join_rows(&self, code: u64) -> u64
        requires { self.now.count ≤ 64 }
        ensures { result ≡ joined_rows self.now.rows code self.now.count }
    {
        let mut joined = 0;
        for (j, row) in (0..self.count).zip(&self.rows) {
            if holds(code, j) {
                joined |= *row;
            }
        }
        joined
    }
}

// The set of no roles.
const EMPTY: u64 = 0;

impl Scheme for Hierarchy {
    ghost meaning = { λ s. hierarchy s.count s.rows };

    ghost lawful = { λ s. hierarchy_lawful s.count s.rows };

    fn sound(&self) -> bool {
        if self.count < 1 || self.count > 64 {
            return false;
        }
        (0..self.count).all(|i| self.row_is_sound(i))
    }

    fn width(&self) -> u32 {
        if self.sound() { self.count } else { 64 }
    }

    fn is_role(&self, code: u64) -> bool {
        self.sound() && fits(code, self.count) && self.is_closed(code)
    }

    fn dominates(&self, a: u64, b: u64) -> bool {
        self.are_roles(a, b) && covers(a, b)
    }

    // Stays: join and meet read as a mask's. A trait for what the two kinds share would be longer than these two lines.
    fn join(&self, a: u64, b: u64) -> Option<u64> {
        self.are_roles(a, b).then_some(a | b)
    }

    fn meet(&self, a: u64, b: u64) -> Option<u64> {
        self.are_roles(a, b).then_some(a & b)
    }

    fn remainder(&self, b: u64, a: u64) -> Option<u64> {
        self.are_roles(b, a).then(|| self.join_rows(without(b, a)))
    }

    fn bottom(&self) -> u64 {
        EMPTY
    }
}

impl fmt::Display for Hierarchy {
    fn fmt<W: fmt::Write>(&self, f: &mut fmt::Formatter<W>) -> fmt::Result {
        write!(f, "hierarchy of {} roles", self.count)
    }
}
