//! Pairs: a role of each of two schemes in one code, the second's in the low bits.
#![tactic(auto)]

ghost use Rattle.std.specs.Prelude.{◌≡◌, true, false};
ghost use Rattle.std.specs.Option.{MatchOption};
ghost use Rattle.pairs.specs.Kind.{packed, pair, pair_code, pair_sound};
ghost use Rattle.pairs.specs.Cuts.{IsCut};
ghost use Rattle.pairs.specs.Parts.{AreParts};
ghost use Rattle.pairs.specs.Laws.{pair_lawful};

mod cut;

use crate::cut::Cut;
use roles::scheme::Scheme;
use std::fmt;

/// Two schemes side by side, sound if both are and their widths add to at most 64.
#[derive(Clone, Copy)]
pub struct Pair<A, B> {
    pub first: A,
    pub second: B,
}

// The parts of a code: a role of each scheme, where the code is a role of the pair.
#[derive(Clone, Copy)]
struct Parts {
    first: u64,
    second: u64,
}

impl<A: Scheme, B: Scheme> Pair<A, B> {
    // Where codes are cut; nowhere if the pair is unsound. Soundness is dear, so a question asks it once for all its codes.
    fn cut(&self) -> Option<Cut>
        ensures { MatchOption result (pair_sound (A.Scheme.meaning self.now.first) (B.Scheme.meaning self.now.second) ≡ false) (IsCut (A.Scheme.meaning self.now.first) (B.Scheme.meaning self.now.second)) }
    {
        if !self.sound() {
            return None;
        }
        Some(Cut {
            width: self.second.width(),
        })
    }

    // The parts of a code, the second's in the low bits.
    fn split(&self, cut: Cut, code: u64) -> Parts
        requires { IsCut (A.Scheme.meaning self.now.first) (B.Scheme.meaning self.now.second) cut }
        ensures { AreParts (A.Scheme.meaning self.now.first) (B.Scheme.meaning self.now.second) code result }
    {
        Parts {
            first: code >> cut.width,
            second: code & ((1 << cut.width) - 1),
        }
    }

    // One code of two roles.
    fn pack(&self, cut: Cut, x: u64, y: u64) -> u64
        requires cut { IsCut (A.Scheme.meaning self.now.first) (B.Scheme.meaning self.now.second) cut }
        requires first { (A.Scheme.meaning self.now.first).role x ≡ true }
        requires second { (B.Scheme.meaning self.now.second).role y ≡ true }
        ensures { result ≡ packed (B.Scheme.meaning self.now.second).width x y }
    {
        x * (1 << cut.width) + y
    }

    /// The code of a role of each part; none where the pair is unsound or a part is no role.
    pub fn code(&self, x: u64, y: u64) -> Option<u64>
        ensures { result ≡ pair_code (A.Scheme.meaning self.now.first) (B.Scheme.meaning self.now.second) x y }
    {
        let cut = self.cut()?;
        let roles = self.first.is_role(x) && self.second.is_role(y);
        roles.then(|| self.pack(cut, x, y))
    }
}

impl<A: Scheme, B: Scheme> Scheme for Pair<A, B> {
    ghost meaning = { λ s. pair (A.Scheme.meaning s.first) (B.Scheme.meaning s.second) };

    ghost lawful = { λ s. pair_lawful (A.Scheme.meaning s.first) (B.Scheme.meaning s.second) (A.Scheme.lawful s.first) (B.Scheme.lawful s.second) };

    fn sound(&self) -> bool {
        self.first.sound() && self.second.sound() && self.first.width() + self.second.width() <= 64
    }

    fn width(&self) -> u32 {
        if self.sound() {
            self.second.width() + self.first.width()
        } else {
            64
        }
    }

    fn is_role(&self, code: u64) -> bool {
        match self.cut() {
            Some(cut) => {
                let c = self.split(cut, code);
                self.first.is_role(c.first) && self.second.is_role(c.second)
            }
            None => false,
        }
    }

    fn dominates(&self, a: u64, b: u64) -> bool {
        match self.cut() {
            Some(cut) => {
                let (a, b) = (self.split(cut, a), self.split(cut, b));
                self.first.dominates(a.first, b.first) && self.second.dominates(a.second, b.second)
            }
            None => false,
        }
    }

    // Stays: join, meet and remainder differ in the question that they put to both parts. One function of two closures, one for each type of part, would be longer.
    fn join(&self, a: u64, b: u64) -> Option<u64> {
        let cut = self.cut()?;
        let (a, b) = (self.split(cut, a), self.split(cut, b));
        let x = self.first.join(a.first, b.first)?;
        let y = self.second.join(a.second, b.second)?;
        Some(self.pack(cut, x, y))
    }

    fn meet(&self, a: u64, b: u64) -> Option<u64> {
        let cut = self.cut()?;
        let (a, b) = (self.split(cut, a), self.split(cut, b));
        let x = self.first.meet(a.first, b.first)?;
        let y = self.second.meet(a.second, b.second)?;
        Some(self.pack(cut, x, y))
    }

    fn remainder(&self, b: u64, a: u64) -> Option<u64> {
        let cut = self.cut()?;
        let (b, a) = (self.split(cut, b), self.split(cut, a));
        let x = self.first.remainder(b.first, a.first)?;
        let y = self.second.remainder(b.second, a.second)?;
        Some(self.pack(cut, x, y))
    }

    fn bottom(&self) -> u64 {
        match self.cut() {
            Some(cut) => self.pack(cut, self.first.bottom(), self.second.bottom()),
            None => 0,
        }
    }
}

impl<A: fmt::Display, B: fmt::Display> fmt::Display for Pair<A, B> {
    fn fmt<W: fmt::Write>(&self, f: &mut fmt::Formatter<W>) -> fmt::Result {
        write!(f, "pair of a {} and a {}", self.first, self.second)
    }
}
