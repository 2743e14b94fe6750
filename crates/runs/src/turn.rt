//! One turn at the table: found, counted, then written.
ghost use Rattle.std.specs.Prelude.{◌≡◌, ◌+◌, ◌^◌, ◌<◌, ◌≤◌, min, length, nat_le};
ghost use Rattle.machine.specs.Plans.{write};
ghost use Rattle.runs.specs.Copy.{Wrote, laid, places};
ghost use Rattle.runs.specs.Find.{ActFits, PathFits, act_plan, along};
ghost use Rattle.runs.specs.Table.{Live, LiveAfter, TurnIs};

use crate::copy::{Putting, renew};
use crate::find::{Act, Redex};
use crate::reach::{Used, fill};
use crate::room::Room;
use machine::condition::Condition;
use roles::scheme::Scheme;
use tables::entry::Entry;
use tables::operand::UNIT;

/// A step that was made: the new current entry, and how many places are used.
#[derive(Clone, Copy)]
pub(crate) struct Moved {
    pub current: u32,
    pub used: u32,
}

impl Used<'_> {
    // Stays: that an act fits is a fact of the act and of the used entries, and an act is made before it is taken apart.
    // Does what an act says, into the room, and tells where what was made stands.
    fn make_act(&self, room: &mut Room, act: &Act) -> u32
        requires form { ActFits self.now.terms.now act.now }
        requires room { room.old.filled + length (write (room.old.base + room.old.filled) (act_plan self.now.terms.now act.now)).entries ≤ length room.old.free.now }
        ensures { Wrote room.old room.new (write (room.old.base + room.old.filled) (act_plan self.now.terms.now act.now)) result }
    {
        match *act {
            Act::Place { body, with } => Putting { used: self, with }.copy(room, body, 0),
            Act::Unit { of } => room.append(Entry {
                tag: UNIT,
                first: of,
                second: 0,
                third: 0,
            }),
            Act::Share { of } => of,
        }
    }

    // Does the act `path` entries inward from `at`, and then writes those entries anew, from inside out.
    fn make_on(&self, room: &mut Room, at: u32, act: &Act, path: u32) -> u32
        requires form { PathFits self.now.terms.now path at act.now }
        requires room { room.old.filled + length (write (room.old.base + room.old.filled) (along self.now.terms.now path at act.now)).entries ≤ length room.old.free.now }
        ensures { Wrote room.old room.new (write (room.old.base + room.old.filled) (along self.now.terms.now path at act.now)) result }
    {
        if path == 0 {
            return self.make_act(room, act);
        }
        let e = self.terms[at as usize];
        let a = self.make_on(room, e.first, act, path - 1);
        room.append(renew(e, a, e.second))
    }

    // Makes the step that was found, into the free places.
    fn make(&self, free: &mut [Entry], at: u32, redex: Redex) -> Moved
        requires form { PathFits self.now.terms.now redex.path at redex.act }
        requires fits { length self.now.terms.now + length free.old < 2 ^ 32 }
        requires room { length (write (length self.now.terms.now) (along self.now.terms.now redex.path at redex.act)).entries ≤ length free.old }
        ensures table { free.new ≡ laid free.old 0 (write (length self.now.terms.now) (along self.now.terms.now redex.path at redex.act)).entries }
        ensures current { result.current ≡ (write (length self.now.terms.now) (along self.now.terms.now redex.path at redex.act)).place }
        ensures used { result.used ≡ length self.now.terms.now + length (write (length self.now.terms.now) (along self.now.terms.now redex.path at redex.act)).entries }
    {
        let base = self.terms.len() as u32;
        let mut room = Room {
            free,
            base,
            filled: 0,
        };
        let current = self.make_on(&mut room, at, &redex.act, redex.path);
        Moved {
            current,
            used: base + room.filled,
        }
    }

    // How many places an act takes, or `limit` if it takes more.
    fn count_act(&self, act: Act, limit: u32) -> u32
        requires form { ActFits self.now.terms.now act }
        requires some { 1 ≤ limit }
        ensures { result ≡ min limit (places (act_plan self.now.terms.now act)) }
    {
        match act {
            Act::Place { body, with } => Putting { used: self, with }.count(body, 0, limit),
            Act::Unit { of: _ } => 1,
            Act::Share { of: _ } => 0,
        }
    }

    // Are so many places enough for the act and the entries passed inward?
    fn fits(&self, act: Act, path: u32, free: u32) -> bool
        requires form { ActFits self.now.terms.now act }
        requires fits { free + 1 < 2 ^ 32 }
        ensures { result ≡ nat_le (places (act_plan self.now.terms.now act) + path) free }
    {
        path <= free && self.count_act(act, free - path + 1) <= free - path
    }
}

// One turn, if the table has room for what it appends. Where no step is made, the condition tells why.
fn turn_at<S: Scheme>(
    scheme: &S,
    role: u64,
    terms: &mut [Entry],
    reach: &[u16],
    current: u32,
    used: u32,
) -> Result<Moved, Condition>
    requires { (Live terms.old reach.now used current) × (length terms.old + 1 < 2 ^ 32) }
    ensures { TurnIs (S.meaning scheme.now) role terms.old terms.new used current result }
{
    let (old, free) = terms.split_at_mut(used as usize);
    let old = Used { terms: old, reach };
    let redex = old.find(scheme, role, current)?;
    if !old.fits(redex.act, redex.path, free.len() as u32) {
        return Err(Condition::TableFull);
    }
    Ok(old.make(free, current, redex))
}

// Stays: a run is lent terms anew at each advance, so what is known of it and of them is a named fact, `Live`, and not part of a type.
/// One turn, after which the reaches of the new entries are known too.
pub(crate) fn turn_live<S: Scheme>(
    scheme: &S,
    role: u64,
    terms: &mut [Entry],
    reach: &mut [u16],
    current: u32,
    used: u32,
) -> Result<Moved, Condition>
    requires { (Live terms.old reach.old used current) × (length terms.old + 1 < 2 ^ 32) }
    ensures is { TurnIs (S.meaning scheme.now) role terms.old terms.new used current result }
    ensures live { LiveAfter terms.new reach.new used current result }
{
    let moved = turn_at(scheme, role, terms, reach, current, used)?;
    fill(&terms[..moved.used as usize], used as usize, reach);
    Ok(moved)
}
