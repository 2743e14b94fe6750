//! The verdict on an input.
ghost use Rattle.std.specs.Prelude.{◌≡◌};
ghost use Rattle.station.specs.Sense.{ImageMeans, InputMeans};
ghost use Rattle.station.specs.Verdicts.{checked_both, image_verdict, of_check, refused, verdict_bytes, verdict_on};

use crate::refusal::Refusal;
use crate::verdict::Verdict;
use blocks::read::read_block;
use checks::check::{check_necessary, check_sufficient};
use checks::clearance::bound_of;
use checks::fault::CheckFault;
use jobs::reader::read;
use roles::scheme::Scheme;
use tables::entry::{Counts, Entry};

// The same refusal by both checks.
fn refuse(refusal: Refusal) -> Verdict
    ensures { result ≡ refused refusal }
{
    Verdict {
        sufficient: Err(refusal),
        necessary: Err(refusal),
    }
}

// The answer of a check.
fn told(answer: Result<u64, CheckFault>) -> Result<u64, Refusal>
    ensures { result ≡ of_check answer }
{
    Ok(answer?)
}

// Both checks of a job that was read. The clearance is given up: the station starts nothing.
fn check_both<S: Scheme>(
    scheme: &S,
    counts: Counts,
    types: &mut [Entry],
    terms: &[Entry],
) -> Verdict
    ensures { result ≡ checked_both (S.meaning scheme.now) counts.types counts.terms types.old terms.now }
{
    let sufficient = told(bound_of(check_sufficient(scheme, counts, types, terms)));
    let necessary = told(check_necessary(scheme, counts, types, terms));
    Verdict {
        sufficient,
        necessary,
    }
}

// Reads the image into tables of our own, and checks what was read.
fn read_and_check<S: Scheme>(scheme: &S, image: &[u8]) -> Verdict
    ensures { result ≡ image_verdict (S.meaning scheme.now) image.now }
{
    // Stays: tables of fixed size, since a verdict may not fail for want of memory.
    let mut types = [Entry::default(); 1536];
    let mut terms = [Entry::default(); 1024];
    match read(scheme, image, &mut types, &mut terms) {
        Ok(counts) => check_both(scheme, counts, &mut types, &terms),
        Err(fault) => refuse(fault.into()),
    }
}

/// The verdict on an image under a scheme.
pub fn judge_image<S: Scheme>(scheme: &S, image: &[u8]) -> Verdict
    ensures exact { result ≡ image_verdict (S.meaning scheme.now) image.now }
    ensures sense { ImageMeans (S.meaning scheme.now) image.now result }
{
    read_and_check(scheme, image)
}

/// The verdict on an input, a scheme block and then an image.
pub fn verdict(input: &[u8]) -> Verdict
    ensures exact { result ≡ verdict_on input.now }
    ensures sense { InputMeans input.now result }
{
    match read_block(input) {
        Ok((block, image)) => judge_image(&block, image),
        Err(fault) => refuse(fault.into()),
    }
}

/// The 24 bytes of the verdict on an input.
pub fn judge(input: &[u8]) -> [u8; 24]
    ensures bytes { result ≡ verdict_bytes (verdict_on input.now) }
    ensures sense { InputMeans input.now (verdict_on input.now) }
{
    verdict(input).bytes()
}
