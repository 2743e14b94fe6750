//! Worked readings of runs, by computation from the definitions that the contract of `advance` cites; and all readings in one statement.
#![tactic(auto)]

ghost use Rattle.run_readings.specs.Runs.{AllReadings};

/// All worked readings, by computation: of the schemes, the calculus, the checks and runs.
pub fn all_readings_hold()
    ensures { AllReadings }
{}
