//! Round trips: what is read is written again byte for byte, and what is written is read again entry for entry.
#![tactic(auto)]

ghost use Rattle.rounds.specs.Rounds.{Rereading, Rewriting};

/// Writing what an accepted reading left gives the image back.
pub fn rewriting()
    ensures { Rewriting }
{}

/// Reading what an accepted writing left gives the same entries.
pub fn rereading()
    ensures { Rereading }
{}
