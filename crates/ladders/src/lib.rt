//! Ladders: a role is a rank, and a rank at least as high dominates.
#![tactic(auto)]

ghost use Rattle.ladders.specs.Kind.{ladder};
ghost use Rattle.ladders.specs.Laws.{ladder_lawful};

use roles::scheme::Scheme;
use std::fmt;

/// The ranks 0 to `top`, sound from top 1 up.
#[derive(Clone, Copy)]
pub struct Ladder {
    pub top: u8,
}

// The lowest rank.
const LOWEST: u64 = 0;

impl Scheme for Ladder {
    ghost meaning = { λ s. ladder s.top };

    ghost lawful = { λ s. ladder_lawful s.top };

    fn sound(&self) -> bool {
        1 <= self.top
    }

    fn width(&self) -> u32 {
        if self.sound() { 8 } else { 64 }
    }

    fn is_role(&self, code: u64) -> bool {
        self.sound() && code <= self.top as u64
    }

    fn dominates(&self, a: u64, b: u64) -> bool {
        self.are_roles(a, b) && a >= b
    }

    fn join(&self, a: u64, b: u64) -> Option<u64> {
        self.are_roles(a, b).then_some(a.max(b))
    }

    fn meet(&self, a: u64, b: u64) -> Option<u64> {
        self.are_roles(a, b).then_some(a.min(b))
    }

    fn remainder(&self, b: u64, a: u64) -> Option<u64> {
        self.are_roles(b, a).then_some(if a >= b { 0 } else { b })
    }

    fn bottom(&self) -> u64 {
        LOWEST
    }
}

impl fmt::Display for Ladder {
    fn fmt<W: fmt::Write>(&self, f: &mut fmt::Formatter<W>) -> fmt::Result {
        write!(f, "ladder with top rank {}", self.top)
    }
}
