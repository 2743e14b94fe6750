//! The walk of a check over the terms of a job: a loop with a stack.
ghost use Rattle.std.specs.Prelude.{◌≡◌, ℕ, ◌+◌, ◌-◌, ◌^◌, ◌<◌, ◌≤◌, [], length, Ok};
ghost use Rattle.tables.specs.Entries.{operand_of};
ghost use Rattle.walks.specs.Places.{Walkable};
ghost use Rattle.walks.specs.Walk.{walk_of, told, table_of};
ghost use Rattle.checks.specs.Frames.{advanced, opened, binder_of, deeper_of, enters_of, env};
ghost use Rattle.checks.specs.Judge.{bound_of};
ghost use Rattle.checks.specs.Systems.{meant};

use crate::judge::claim;
use crate::system::System;
use crate::table::Types;
use arrayvec::ArrayVec;
use roles::scheme::Scheme;
use tables::entry::Entry;
use tables::operand::{
    ABSTRACTION, COMPUTATION, LET, VARIABLE, ask, binds, named_terms, operand_of,
};
use walks::fault::TypingFault;
use walks::finding::Finding;

// A term under `depth` binders of which `stage` operands are walked; `first` is the type found before the last one was entered.
#[derive(Clone, Copy, Default)]
pub(crate) struct Frame {
    number: u32,
    stage: u8,
    first: u32,
    depth: u32,
}

impl Frame {
    // A term of which no operand is walked.
    fn open(number: u32, depth: u32) -> Frame
        ensures { result ≡ opened number depth }
    {
        Frame {
            number,
            stage: 0,
            first: 0,
            depth,
        }
    }

    // The operand of `e` that is entered next.
    fn enter(self, e: Entry) -> Frame
        requires { self.depth < 1024 }
        ensures { result ≡ opened (operand_of e self.stage) (deeper_of e self.stage self.depth) }
    {
        let bound = binds(e.tag, self.stage);
        let depth = if bound { self.depth + 1 } else { self.depth };
        Frame::open(operand_of(e, self.stage), depth)
    }

    // The term with one more operand entered, where `last` was found before it.
    fn next(self, last: u32) -> Frame
        requires { self.stage < 2 }
        ensures { result ≡ advanced self last }
    {
        Frame {
            stage: self.stage + 1,
            first: last,
            ..self
        }
    }
}

// The type of a variable's binder.
#[tactic(auto, using(crate::proofs::Envs::env_at))]
fn lookup(binders: &[u32], depth: u32, e: Entry) -> u32
    requires long { depth ≤ length binders.now }
    requires bound { e.tag ≡ 17 → e.first < depth }
    ensures { result ≡ bound_of (env binders.now depth) e }
{
    if e.tag == VARIABLE {
        binders[(depth - 1 - e.first) as usize]
    } else {
        0
    }
}

// Stays: this and `binder` ask about one operand by the same four values. A type for them would be made for these two calls alone.
// Is the operand walked? The second of a let only after a computation.
fn enters(types: &[Entry], e: Entry, stage: u8, last: u32) -> bool
    requires { e.tag ≡ 24 → stage ≡ 1 → last < length types.now }
    ensures { result ≡ enters_of types.now e stage last }
{
    e.tag != LET || stage != 1 || types[last as usize].tag == COMPUTATION
}

// The type of the variable that is bound in the operand, if any is.
fn binder(system: System, types: &[Entry], e: Entry, stage: u8, last: u32) -> u32
    requires found { e.tag ≡ 24 → stage ≡ 1 → last < length types.now }
    requires claim { e.tag ≡ 18 → e.third < 2 ^ 32 }
    ensures { result ≡ binder_of (meant system) types.now e stage last }
{
    match (e.tag, stage) {
        (ABSTRACTION, _) => claim(system, e),
        (LET, 1) => types[last as usize].first,
        _ => 0,
    }
}

/// Finds the type of the last term and of each below it. Types are appended from place `t` up.
pub(crate) fn walk<S: Scheme>(
    scheme: &S,
    system: System,
    t: u32,
    types: &mut [Entry],
    terms: &[Entry],
) -> Result<u32, TypingFault>
    requires { Walkable (S.meaning scheme.now) t types.old terms.now }
    ensures answer { result ≡ told (walk_of (S.meaning scheme.now) (meant system) t terms.now (length terms.now - 1) [] types.old t) }
    ensures table { types.new ≡ table_of (walk_of (S.meaning scheme.now) (meant system) t terms.now (length terms.now - 1) [] types.old t) }
    ensures there { (x : ℕ) → result ≡ Ok x → x < length types.new }
{
    let mut frames = ArrayVec::<Frame, 1024>::new();
    frames.push(Frame::open(terms.len() as u32 - 1, 0));
    // Stays: the types of the binders are a local array, of which each frame uses the first `depth`, so that a check needs no heap.
    let mut binders = [0u32; 1024];
    let mut used = t;
    let mut last: u32 = 0;
    while let Some(frame) = frames.pop() {
        let e = terms[frame.number as usize];
        let place = t + frame.number;
        if frame.stage < named_terms(e.tag) {
            let walked = enters(types, e, frame.stage, last);
            ask(walked, TypingFault::NoComputation { place })?;
            binders[frame.depth as usize] = binder(system, types, e, frame.stage, last);
            frames.push(frame.next(last));
            frames.push(frame.enter(e));
        } else {
            let bound = lookup(&binders, frame.depth, e);
            let known = Types {
                scheme,
                system,
                entries: &*types,
                used,
            };
            let found = known.judge(place, e, frame.first, last, bound)?;
            match found {
                Finding::Known(ty) => last = ty,
                Finding::New(entry) => {
                    types[used as usize] = entry;
                    last = used;
                    used += 1;
                }
            }
        }
    }
    Ok(last)
}
