//! A run of a job under a role.
ghost use Rattle.std.specs.Prelude.{◌≡◌, ◌+◌, ◌^◌, ◌<◌, true, false, length, is_ok};
ghost use Rattle.runs.specs.Meant.{Meant};
ghost use Rattle.runs.specs.Parts.{InParts};
ghost use Rattle.runs.specs.Run.{answered, asked_first, gone, refusal, run_after, seen, start_asked, started, taken, terms_after};
ghost use Rattle.machine.specs.Conditions.{ends};
ghost use Rattle.runs.specs.Table.{Live};
ghost use Rattle.runs.specs.Went.{Went};

use crate::fault::{RunFault, StartFault};
use crate::find::idle_by;
use crate::reach::Used;
use crate::turn::{Moved, turn_live};
use crate::usable::usable;
use machine::condition::Condition;
use roles::refusal::ask_sound;
use roles::scheme::Scheme;
use tables::entry::{Counts, Entry};
use tables::form::form;
use tables::operand::ask;

/// A run. There is only one of each: it is neither copied nor made but by a start.
pub struct Run {
    role: u64,
    steps: u32,
    used: u32,
    current: u32,
    condition: Condition,
}

/// What looking at a run tells.
#[derive(Clone, Copy, PartialEq, Eq, Debug)]
pub struct Look {
    pub steps: u32,
    pub used: u32,
    pub current: u32,
    pub condition: Condition,
}

/// What an advance answers.
#[derive(Clone, Copy, PartialEq, Eq, Debug)]
pub struct Progress {
    pub made: u32,
    pub condition: Condition,
}

// What a start asks: the questions of form, then whether the code is a role.
fn ask_start<S: Scheme>(
    scheme: &S,
    counts: Counts,
    types: &[Entry],
    terms: &[Entry],
    role: u64,
) -> Result<(), StartFault>
    ensures { result ≡ start_asked (S.meaning scheme.now) counts types.now terms.now role }
{
    form(scheme, counts, types, terms)?;
    ask(scheme.is_role(role), StartFault::Role { code: role })
}

/// Starts a run of any well-formed job, as a rehearsal: nothing is checked of its types, and nothing is written.
pub fn rehearse<S: Scheme>(
    scheme: &S,
    counts: Counts,
    types: &[Entry],
    terms: &[Entry],
    role: u64,
) -> Result<Run, StartFault>
    ensures { result ≡ started (start_asked (S.meaning scheme.now) counts types.now terms.now role) counts.terms role }
{
    ask_start(scheme, counts, types, terms, role)?;
    Ok(Run {
        role,
        steps: 0,
        used: counts.terms,
        current: counts.terms - 1,
        condition: Condition::Going,
    })
}

impl Run {
    /// Steps, places used, current entry and condition.
    pub fn look(&self) -> Look
        ensures { result ≡ seen self.now }
    {
        Look {
            steps: self.steps,
            used: self.used,
            current: self.current,
            condition: self.condition,
        }
    }

    /// Gives the run up, and tells how it stood.
    pub fn close(self) -> Look
        ensures { result ≡ seen self }
    {
        let look = self.look();
        let Run {
            role: _,
            steps: _,
            used: _,
            current: _,
            condition: _,
        } = self;
        look
    }

    // What an advance asks, in order; then the reaches of the used entries are known.
    fn ask<S: Scheme>(
        &self,
        scheme: &S,
        terms: &[Entry],
        budget: u64,
        reach: &mut [u16],
    ) -> Result<(), RunFault>
        requires { length reach.old ≡ 16384 }
        ensures asked { result ≡ asked_first (refusal (S.meaning scheme.now) self.now terms.now budget) }
        ensures live { is_ok result ≡ true → Live terms.now reach.new self.now.used self.now.current }
        ensures below { is_ok result ≡ true → self.now.steps + budget < 2 ^ 32 }
    {
        ask_sound(scheme)?;
        ask(
            scheme.is_role(self.role),
            RunFault::Role { code: self.role },
        )?;
        ask(
            usable(scheme, terms, self.used, self.current, reach),
            RunFault::Unusable,
        )?;
        ask(
            !self.condition.ended(),
            RunFault::Ended {
                condition: self.condition,
            },
        )?;
        ask(
            budget < (1 << 32) - self.steps as u64,
            RunFault::Budget {
                steps: self.steps,
                budget,
            },
        )
    }

    // Takes what a turn met: goes on, or ends or halts for places; a run that has ended stays.
    fn take(&mut self, met: Result<Moved, Condition>)
        requires { self.old.steps + 1 < 2 ^ 32 }
        ensures { self.new ≡ taken self.old met }
    {
        match (self.condition, met) {
            (Condition::Going | Condition::TableFull, Ok(moved)) => {
                self.steps += 1;
                self.current = moved.current;
                self.used = moved.used;
                self.condition = Condition::Going;
            }
            (Condition::Going | Condition::TableFull, Err(condition)) => self.condition = condition,
            _ => {}
        }
    }

    // At most `budget` turns, and how many were made. If the budget is spent, the condition tells whether the run could go on.
    fn go<S: Scheme>(
        &mut self,
        scheme: &S,
        terms: &mut [Entry],
        reach: &mut [u16],
        budget: u32,
    ) -> u32
        requires { (Live terms.old reach.old self.old.used self.old.current) × ((length terms.old + 1 < 2 ^ 32) × ((self.old.steps + budget < 2 ^ 32) × (ends self.old.condition ≡ false))) }
        ensures { Went (S.meaning scheme.now) budget self.old self.new terms.old terms.new result }
    {
        for made in 0..budget {
            let met = turn_live(scheme, self.role, terms, reach, self.current, self.used);
            self.take(met);
            if met.is_err() {
                return made;
            }
        }
        let used = Used {
            terms: &terms[..self.used as usize],
            reach,
        };
        self.condition = idle_by(used.find(scheme, self.role, self.current));
        budget
    }

    /// Makes at most `budget` steps, as many as are possible in the table. The same is left if the budget is spent in two parts, but that a second part of 0 tells no full table.
    pub fn advance<S: Scheme>(
        &mut self,
        scheme: &S,
        terms: &mut [Entry],
        budget: u64,
    ) -> Result<Progress, RunFault>
        ensures answer { result ≡ answered (refusal (S.meaning scheme.now) self.old terms.old budget) (gone (S.meaning scheme.now) self.old terms.old budget) }
        ensures run { self.new ≡ run_after (refusal (S.meaning scheme.now) self.old terms.old budget) self.old (gone (S.meaning scheme.now) self.old terms.old budget) }
        ensures table { terms.new ≡ terms_after (refusal (S.meaning scheme.now) self.old terms.old budget) terms.old (gone (S.meaning scheme.now) self.old terms.old budget) }
        ensures meaning { Meant (S.meaning scheme.now) self.old self.new terms.old terms.new budget result }
        ensures parts { InParts (S.meaning scheme.now) self.old self.new terms.old terms.new budget }
    {
        // Stays: a local array beside the terms, since an advance may not fail for want of memory.
        let mut reach = [0u16; 16384];
        self.ask(scheme, terms, budget, &mut reach)?;
        let made = self.go(scheme, terms, &mut reach, budget as u32);
        Ok(Progress {
            made,
            condition: self.condition,
        })
    }
}
