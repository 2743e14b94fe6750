//! Types compared as they stand in a table: a loop with a stack.
ghost use Rattle.std.specs.Prelude.{◌≡◌, ◌+◌, ◌<◌, ◌≤◌, length, ◌++◌};
ghost use Rattle.arrayvec.specs.ArrayVec.{array_vec_len};
ghost use Rattle.calculus.specs.Inference.{role_test_way};
ghost use Rattle.walks.specs.Rules as rule;
ghost use Rattle.checks.specs.Compare.{alike_of, operands_of};
ghost use Rattle.checks.specs.Systems.{meant};

use crate::system::System;
use crate::table::Types;
use arrayvec::ArrayVec;
use roles::scheme::Scheme;
use tables::entry::Entry;
use tables::operand::{BASE, FUNCTION};

// Two types that are still to be compared, the left with the right or the other way.
#[derive(Clone, Copy, Default)]
pub(crate) struct Pair {
    left: u32,
    right: u32,
    forward: bool,
}

// Pushes what two alike types leave to compare: nothing, two inner types, or two results and then two arguments, which turn.
fn push_operands(pairs: &mut ArrayVec<Pair, 2048>, forward: bool, x: Entry, y: Entry)
    requires { array_vec_len pairs.old + length (operands_of forward x y) ≤ 2048 }
    ensures { pairs.new.items ≡ pairs.old.items ++ operands_of forward x y }
{
    if x.tag == FUNCTION {
        pairs.push(Pair {
            left: x.second,
            right: y.second,
            forward,
        });
        pairs.push(Pair {
            left: x.first,
            right: y.first,
            forward: !forward,
        });
    } else if x.tag != BASE {
        pairs.push(Pair {
            left: x.first,
            right: y.first,
            forward,
        });
    }
}

impl<S: Scheme> Types<'_, S> {
    // The role test of the system, forward or back.
    fn role_test(&self, forward: bool, a: u64, b: u64) -> bool
        ensures { result ≡ role_test_way (S.meaning self.now.scheme.now) (meant self.now.system) forward a b }
    {
        let upward = match self.system {
            System::Sufficient => !forward,
            System::Necessary => forward,
        };
        if upward {
            self.scheme.dominates(a, b)
        } else {
            self.scheme.dominates(b, a)
        }
    }

    // Do two types agree in all but the types that they name?
    fn alike(&self, forward: bool, x: Entry, y: Entry) -> bool
        ensures { result ≡ alike_of (S.meaning self.now.scheme.now) (meant self.now.system) forward x y }
    {
        if x.tag != y.tag {
            false
        } else if x.tag == BASE {
            x.first == y.first
        } else if x.tag == FUNCTION {
            true
        } else {
            self.role_test(forward, x.third, y.third)
        }
    }

    // Stays: that a number is that of a type found so far is said of each number. A type of such numbers would outlive what it is true of.
    /// Is type `a` below type `b`?
    pub(crate) fn below(&self, a: u32, b: u32) -> bool
        requires left { a < self.now.used }
        requires right { b < self.now.used }
        ensures { result ≡ rule.below (S.meaning self.now.scheme.now) (meant self.now.system) self.now.entries.now a b }
    {
        let mut pairs = ArrayVec::<Pair, 2048>::new();
        pairs.push(Pair {
            left: a,
            right: b,
            forward: true,
        });
        while let Some(pair) = pairs.pop() {
            let x = self.entries[pair.left as usize];
            let y = self.entries[pair.right as usize];
            if !self.alike(pair.forward, x, y) {
                return false;
            }
            push_operands(&mut pairs, pair.forward, x, y);
        }
        true
    }
}
