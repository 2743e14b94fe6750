ghost use Rattle.std.specs.Prelude.{◌≡◌, true, ◌↔◌, length, if◌then◌else◌, Some, None, Ok, nat_eq};
ghost use Rattle.dispatcher.specs.Decide.{after_block, codes_in, compared, report_on, wrong_length};

use crate::report::{Codes, Decision, Refusal, Report};
use blocks::block::Block;
use blocks::read::read_block;
use codes::bytes::read_code;
use roles::refusal::ask_sound;
use roles::scheme::Scheme;

// Asks the questions in their order, then compares.
fn compare<S: Scheme>(scheme: &S, codes: Codes) -> Result<Decision, Refusal>
    ensures { result ≡ compared (S.meaning scheme.now) codes }
{
    ask_sound(scheme)?;
    if !scheme.is_role(codes.bound) {
        return Err(Refusal::BoundNoRole);
    }
    if !scheme.is_role(codes.on_duty) {
        return Err(Refusal::DutyNoRole);
    }
    if scheme.dominates(codes.on_duty, codes.bound) {
        Ok(Decision::MayStart)
    } else {
        Ok(Decision::MayNotStart)
    }
}

/// Decides on two codes under any scheme: may a job with this bound start under the role on duty?
pub fn decide<S: Scheme>(scheme: &S, codes: Codes) -> Result<Decision, Refusal>
    ensures exact { result ≡ compared (S.meaning scheme.now) codes }
    ensures starts { (result ≡ Ok Decision.MayStart) ↔ ((S.meaning scheme.now).dom codes.on_duty codes.bound ≡ true) }
{
    compare(scheme, codes)
}

// The refusal of an input whose block is not followed by two codes and nothing else.
fn refuse_length<S: Scheme>(scheme: &S, length: usize) -> Refusal
    ensures { result ≡ wrong_length (S.meaning scheme.now) length }
{
    match ask_sound(scheme) {
        Err(fault) => Refusal::from(fault),
        Ok(()) if length < 16 => Refusal::TooShort,
        Ok(()) => Refusal::TooLong,
    }
}

// The role on duty and the bound, if they and nothing else stand there.
fn read_codes(bytes: &[u8]) -> Option<Codes>
    ensures { result ≡ (if nat_eq (length bytes.now) 16 then Some (codes_in bytes.now) else None) }
{
    if bytes.len() != 16 {
        return None;
    }
    let on_duty = read_code(bytes, 0)?;
    let bound = read_code(bytes, 8)?;
    Some(Codes { on_duty, bound })
}

// The report on what follows a block.
fn report_after(block: Block, rest: &[u8]) -> Report
    ensures { result ≡ after_block (record { block = block; rest = rest.now }) }
{
    let codes = read_codes(rest);
    let decision = match codes {
        Some(codes) => decide(&block, codes),
        None => Err(refuse_length(&block, rest.len())),
    };
    Report {
        scheme: Some(block),
        codes,
        decision,
    }
}

/// Reports on an input: a scheme block, the role on duty, the bound.
pub fn report(input: &[u8]) -> Report
    ensures { result ≡ report_on input.now }
{
    match read_block(input) {
        Ok((block, rest)) => report_after(block, rest),
        Err(fault) => Report {
            scheme: None,
            codes: None,
            decision: Err(Refusal::from(fault)),
        },
    }
}
