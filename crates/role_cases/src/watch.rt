ghost use Rattle.role_cases.specs.Watch.{watch};
ghost use Rattle.role_cases.specs.Laws.{watch_lawful};

use roles::scheme::Scheme;

/// Two roles: standby, 5, and alert, 9. The bottom is not 0.
#[derive(Clone, Copy)]
pub struct Watch;

impl Scheme for Watch {
    ghost meaning = { λ _. watch };

    ghost lawful = { λ s. watch_lawful };

    fn sound(&self) -> bool {
        true
    }

    fn width(&self) -> u32 {
        4
    }

    fn is_role(&self, code: u64) -> bool {
        code == 5 || code == 9
    }

    fn dominates(&self, a: u64, b: u64) -> bool {
        self.are_roles(a, b) && a >= b
    }

    fn join(&self, a: u64, b: u64) -> Option<u64> {
        self.are_roles(a, b).then_some(a.max(b))
    }

    fn meet(&self, a: u64, b: u64) -> Option<u64> {
        self.are_roles(a, b).then_some(a.min(b))
    }

    fn remainder(&self, b: u64, a: u64) -> Option<u64> {
        self.are_roles(b, a).then_some(if a >= b { 5 } else { b })
    }

    fn bottom(&self) -> u64 {
        5
    }
}
