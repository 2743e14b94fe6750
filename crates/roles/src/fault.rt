//! What every fault tells: the number of the question that was answered with no, and a place.
ghost use Rattle.std.specs.Prelude.{◌≡◌, ℕ};

/// A question that was answered with no.
pub trait Fault {
    // the number of each fault's question
    ghost number_of: { Self → ℕ };

    // the place of the entry that each fault means, or 0
    ghost place_of: { Self → ℕ };

    /// The number of the question.
    fn number(&self) -> u8
        ensures { result ≡ number_of self.now };

    /// The place of the entry that is meant, or 0.
    fn place(&self) -> u32
        ensures { result ≡ place_of self.now };
}
