ghost use Rattle.std.specs.Prelude.{◌≡◌, ◌&&◌};
ghost use Rattle.roles.specs.Meaning.{Meaning, Lawful};
ghost use Rattle.roles.specs.Theorems.{OrderDecides};

use std::fmt;

/// A scheme of roles. Asking it changes nothing.
pub trait Scheme {
    // the roles, which of them dominates which, and the answers that follow from these two
    ghost meaning: { Self → Meaning };

    /// Has the scheme roles? An unsound one has none, width 64 and bottom 0.
    fn sound(&self) -> bool
        ensures { result ≡ (meaning self.now).sound };

    /// How many bits a role takes: every role is below two to the width.
    fn width(&self) -> u32
        ensures { result ≡ (meaning self.now).width };

    /// Is the code a role?
    fn is_role(&self, code: u64) -> bool
        ensures { result ≡ (meaning self.now).role code };

    /// Are both codes roles?
    fn are_roles(&self, a: u64, b: u64) -> bool
        ensures { result ≡ ((meaning self.now).role a && (meaning self.now).role b) }
    {
        self.is_role(a) && self.is_role(b)
    }

    /// Does `a` dominate `b`? A code that is no role dominates nothing and is dominated by none.
    fn dominates(&self, a: u64, b: u64) -> bool
        ensures { result ≡ (meaning self.now).dom a b };

    /// The least role that dominates both; none unless both are roles.
    fn join(&self, a: u64, b: u64) -> Option<u64>
        ensures { result ≡ (meaning self.now).join a b };

    /// The greatest role that both dominate; none unless both are roles.
    fn meet(&self, a: u64, b: u64) -> Option<u64>
        ensures { result ≡ (meaning self.now).meet a b };

    /// The remainder of `b` by `a`: what `a` lacks to dominate `b`; none unless both are roles.
    fn remainder(&self, b: u64, a: u64) -> Option<u64>
        ensures { result ≡ (meaning self.now).remainder b a };

    /// The role that every role dominates.
    fn bottom(&self) -> u64
        ensures { result ≡ (meaning self.now).bottom };

    // what every kind proves of its meaning, and all that code over any scheme may use
    ghost lawful: { (s : Self) → Lawful (meaning s) };
}

/// Why a call refuses a scheme.
#[derive(Clone, Copy, PartialEq, Eq, Debug)]
pub enum SchemeFault {
    /// The scheme is unsound, so it has no roles.
    Unsound,
}

impl fmt::Display for SchemeFault {
    fn fmt<W: fmt::Write>(&self, f: &mut fmt::Formatter<W>) -> fmt::Result {
        match self {
            SchemeFault::Unsound => write!(f, "the scheme is not sound"),
        }
    }
}

/// The role set and the order decide every other answer but the width, so what is proved from a meaning is proved from these two.
pub fn order_decides()
    ensures { OrderDecides }
{}
