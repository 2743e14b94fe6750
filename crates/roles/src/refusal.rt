ghost use Rattle.std.specs.Prelude.{◌≡◌, is_ok};
ghost use Rattle.roles.specs.Refusal.{number_of, place_of};

use crate::fault::Fault;
use crate::scheme::{Scheme, SchemeFault};

impl Fault for SchemeFault {
    ghost number_of = { number_of };

    ghost place_of = { place_of };

    fn number(&self) -> u8 {
        match self {
            SchemeFault::Unsound => 2,
        }
    }

    fn place(&self) -> u32 {
        match self {
            SchemeFault::Unsound => 0,
        }
    }
}

/// Asks what every call with a scheme asks first: is it sound?
pub fn ask_sound<S: Scheme>(scheme: &S) -> Result<(), SchemeFault>
    ensures { is_ok result ≡ (S.meaning scheme.now).sound }
{
    if scheme.sound() {
        Ok(())
    } else {
        Err(SchemeFault::Unsound)
    }
}
