//! Worked readings of the two checks, on tables, under a mask and a ladder.
#![tactic(auto)]

ghost use Rattle.check_readings.specs.Bounds.{CheckReadings};

/// The worked readings, by computation.
#[tactic(auto, using(crate::proofs::Reading::check_readings_lem))]
pub fn check_readings_hold()
    ensures { CheckReadings }
{}
