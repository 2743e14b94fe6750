//! A verdict, and its 24 bytes.
ghost use Rattle.std.specs.Prelude.{◌≡◌};
ghost use Rattle.station.specs.Verdicts.{bound_told, number_told, place_told, verdict_bytes};

use crate::refusal::Refusal;
use codes::bytes::{bytes32, bytes64};
use roles::fault::Fault;

/// The answers of both checks: a bound each, or why there is none.
#[derive(Clone, Copy)]
pub struct Verdict {
    pub sufficient: Result<u64, Refusal>,
    pub necessary: Result<u64, Refusal>,
}

// The number of a refusal; 0 is told where there is none.
fn number(answer: Result<u64, Refusal>) -> u8
    ensures { result ≡ number_told answer }
{
    answer.map_or_else(|refusal| refusal.number(), |_| 0)
}

// The place of a refusal; 0 is told where there is none.
fn place(answer: Result<u64, Refusal>) -> u32
    ensures { result ≡ place_told answer }
{
    answer.map_or_else(|refusal| refusal.place(), |_| 0)
}

// The bound of an accepted job; 0 is told where there is none.
fn bound(answer: Result<u64, Refusal>) -> u64
    ensures { result ≡ bound_told answer }
{
    answer.unwrap_or(0)
}

impl Verdict {
    /// The 24 bytes: the numbers of both refusals, their places, two zeros, both bounds.
    pub fn bytes(&self) -> [u8; 24]
        ensures { result ≡ verdict_bytes self.now }
    {
        let mut bytes = [0; 24];
        bytes[0] = number(self.sufficient);
        bytes[1] = number(self.necessary);
        bytes[2..4].copy_from_slice(&bytes32(place(self.sufficient))[..2]);
        bytes[4..6].copy_from_slice(&bytes32(place(self.necessary))[..2]);
        bytes[8..16].copy_from_slice(&bytes64(bound(self.sufficient)));
        bytes[16..24].copy_from_slice(&bytes64(bound(self.necessary)));
        bytes
    }
}
