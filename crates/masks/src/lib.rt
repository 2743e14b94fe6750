//! Masks: a role is any code of the scheme's width, and a superset of bits dominates.
#![tactic(auto)]

ghost use Rattle.masks.specs.Kind.{mask};
ghost use Rattle.masks.specs.Laws.{mask_lawful};

use codes::bits::{covers, fits, without};
use roles::scheme::Scheme;
use std::fmt;

/// The mask of a width, sound for widths 1 to 64.
#[derive(Clone, Copy)]
pub struct Mask {
    pub width: u32,
}

// The set of no bits.
const EMPTY: u64 = 0;

impl Scheme for Mask {
    ghost meaning = { λ s. mask s.width };

    ghost lawful = { λ s. mask_lawful s.width };

    fn sound(&self) -> bool {
        1 <= self.width && self.width <= 64
    }

    fn width(&self) -> u32 {
        if self.sound() { self.width } else { 64 }
    }

    fn is_role(&self, code: u64) -> bool {
        self.sound() && fits(code, self.width)
    }

    fn dominates(&self, a: u64, b: u64) -> bool {
        self.are_roles(a, b) && covers(a, b)
    }

    fn join(&self, a: u64, b: u64) -> Option<u64> {
        self.are_roles(a, b).then_some(a | b)
    }

    fn meet(&self, a: u64, b: u64) -> Option<u64> {
        self.are_roles(a, b).then_some(a & b)
    }

    fn remainder(&self, b: u64, a: u64) -> Option<u64> {
        self.are_roles(b, a).then_some(without(b, a))
    }

    fn bottom(&self) -> u64 {
        EMPTY
    }
}

impl fmt::Display for Mask {
    fn fmt<W: fmt::Write>(&self, f: &mut fmt::Formatter<W>) -> fmt::Result {
        write!(f, "mask of {} bits", self.width)
    }
}
