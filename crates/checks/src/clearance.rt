//! What an accepted sufficient check gives.
ghost use Rattle.std.specs.Prelude.{◌≡◌};
ghost use Rattle.checks.specs.Checking.{cleared};
ghost use Rattle.checks.specs.Sense.{plain};

use crate::fault::CheckFault;

/// A job's sufficient bound, as a check has found it. It is made by an accepted sufficient check alone, and cannot be copied: one check clears one start.
pub struct Clearance {
    bound: u64,
}

impl Clearance {
    /// The bound.
    pub fn bound(&self) -> u64
        ensures { result ≡ self.now.bound }
    {
        self.bound
    }

    /// Gives the clearance up, unused, and tells its bound.
    pub fn discard(self) -> u64
        ensures { result ≡ self.bound }
    {
        let Clearance { bound } = self;
        bound
    }
}

/// The clearance of an accepted sufficient check; nothing else makes one.
pub(crate) fn clear(answer: Result<u64, CheckFault>) -> Result<Clearance, CheckFault>
    ensures { result ≡ cleared answer }
{
    answer.map(|bound| Clearance { bound })
}

/// The bound of an accepted job, whose clearance is given up unused, or why the job is refused.
pub fn bound_of(answer: Result<Clearance, CheckFault>) -> Result<u64, CheckFault>
    ensures { result ≡ plain answer }
{
    answer.map(Clearance::discard)
}
