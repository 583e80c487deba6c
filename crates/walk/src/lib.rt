// Events against every production of a table.
#![tactic(auto)]

ghost use Rattle.std.specs.Prelude.{◌≡◌, true, cond, ◌+◌, ◌≤◌, ◌<◌, get_or, take, drop};
ghost use Rattle.tables.specs.Reading.{production_total, production_events, decode};
ghost use Rattle.tables.specs.Whole.{whole};
ghost use Rattle.words.specs.Runs.{total};
ghost use Rattle.model.specs.Matching.{reading_of};
ghost use Rattle.machine.specs.Kept.{longest_end};
ghost use Rattle.keyboard.specs.Maps.{map_numbers, lent_setting};
ghost use Rattle.states.specs.State.{zero_event, slots_of};
ghost use Rattle.filter.specs.Filter.{sought_of, Outside};
ghost use Rattle.follow.specs.Follow.{WalkReady};
ghost use Rattle.walk.specs.Walk.{Skipped, passed, passed_in};

use filter::{Reach, Sought};
use follow::Followed;
use states::slots;
use tables::places;

// What one pass over the productions finds of a stretch.
#[derive(Clone, Copy)]
pub enum Passed {
    // It reads as a prefix of none.
    No,
    // It does of some, and is the whole sequence of none.
    Prefix,
    // The earliest production whose whole sequence it is.
    Chosen(usize),
}

// Where the stretch begins that reads as a prefix, and what the pass found of it.
#[derive(Clone, Copy)]
pub struct Start {
    pub at: usize,
    pub found: Passed,
}

// A production, and where its events begin.
#[derive(Clone, Copy)]
pub struct Spot {
    pub at: usize,
    pub p: usize,
}

// How many events sixteen productions have, from production p on. They are so few that 16 bits hold the sum, and it is
// compiled to vector instructions.
fn sixteen(table: &[u8], p: usize) -> usize
    requires { (whole table.now ≡ true) × (p + 16 ≤ production_total table.now) }
    ensures { result ≡ total (production_events table.now) p 16 }
{
    let mut sum: u16 = 0;
    for i in 0..16 {
        sum += words::word_at(table, places::PRODUCTION_EVENTS + (p + i));
    }
    usize::from(sum)
}

// A production not far before the first whose events do not begin before `low`: sixteen are stepped over at a time.
fn leap(table: &[u8], n: usize, low: usize) -> Spot
    requires { (whole table.now ≡ true) × (n ≡ production_total table.now) }
    ensures { Skipped table.now low result.at result.p }
{
    let mut at: usize = 0;
    for i in 0..n / 16 {
        let p = 16 * i;
        let next = at + sixteen(table, p);
        if low < next {
            return Spot { at, p };
        }
        at = next;
    }
    Spot {
        at,
        p: 16 * (n / 16),
    }
}

// The first production whose events do not begin before `low`.
fn skip(table: &[u8], low: usize) -> Spot
    requires { whole table.now ≡ true }
    ensures { Skipped table.now low result.at result.p }
{
    let n = tables::read::production_count(table);
    let spot = leap(table, n, low);
    let mut at = spot.at;
    for p in spot.p..n {
        if low <= at {
            return Spot { at, p };
        }
        at += tables::read::production_events(table, p);
    }
    Spot { at, p: n }
}

// What a pass has found that found no whole sequence.
fn ended(seen: bool) -> Passed
    ensures { result ≡ cond seen Passed.Prefix Passed.No }
{
    if seen { Passed::Prefix } else { Passed::No }
}

// Events from..to against the productions within the bounds, in order. One whose first event does not pass the quick test for
// the first of them is passed over at once.
fn scan(
    table: &[u8],
    maps: &[u8],
    limit: u32,
    events: &[u8],
    from: usize,
    to: usize,
    one: Sought,
    reach: Reach,
) -> Passed
    requires { WalkReady table.now maps.now events.now to × (from < to) × (one ≡ sought_of (map_numbers maps.now) (get_or (slots_of events.now) from zero_event)) × Outside table.now (map_numbers maps.now) (drop from (take to (slots_of events.now))) reach.low reach.high }
    ensures { result ≡ passed (decode table.now) (lent_setting maps.now limit) (drop from (take to (slots_of events.now))) }
{
    let n = tables::read::production_count(table);
    let spot = skip(table, usize::from(reach.low));
    let high = usize::from(reach.high);
    let mut seen = false;
    let mut at = spot.at;
    for p in spot.p..n {
        if high <= at {
            return ended(seen);
        }
        let size = tables::read::production_events(table, p);
        if filter::seems_one(table, at, one) {
            match follow::follow(table, maps, limit, at, size, events, from, to) {
                Followed::Whole => return Passed::Chosen(p),
                Followed::Prefix => seen = true,
                Followed::No => {}
            }
        }
        at += size;
    }
    ended(seen)
}

// Where the productions begin that may have the stretch as a prefix. Most productions are on keys, and most keys have none: for
// a key event every event of the table is tried at once, by its code, its detail and the modifiers that it asks set or, where
// the stretch goes on, by the codes and details of two events.
fn reach_of(table: &[u8], maps: &[u8], events: &[u8], from: usize, to: usize, one: Sought) -> Reach
    requires { WalkReady table.now maps.now events.now to × (from < to) × (one ≡ sought_of (map_numbers maps.now) (get_or (slots_of events.now) from zero_event)) }
    ensures { Outside table.now (map_numbers maps.now) (drop from (take to (slots_of events.now))) result.low result.high }
{
    if 3 < one.code {
        return filter::reach_of_code(table, one);
    }
    if from + 1 == to {
        return filter::reach_alone(table, one);
    }
    let two = filter::sought_of(maps, slots::event_at(events, from + 1));
    filter::reach_paired(table, one, two)
}

// Events from..to against every production, in order.
pub fn pass(table: &[u8], maps: &[u8], limit: u32, events: &[u8], from: usize, to: usize) -> Passed
    requires { WalkReady table.now maps.now events.now to × (from < to) }
    ensures { result ≡ passed (decode table.now) (lent_setting maps.now limit) (drop from (take to (slots_of events.now))) }
{
    let one = filter::sought_of(maps, slots::event_at(events, from));
    let reach = reach_of(table, maps, events, from, to, one);
    scan(table, maps, limit, events, from, to, one, reach)
}

// The smallest start from `from` on at which the events up to `to` read as a prefix, or `to`.
pub fn first_start(
    table: &[u8],
    maps: &[u8],
    limit: u32,
    events: &[u8],
    from: usize,
    to: usize,
) -> Start
    requires { WalkReady table.now maps.now events.now to × (from ≤ to) }
    ensures { (result.at ≤ to) × (drop result.at (take to (slots_of events.now)) ≡ longest_end (reading_of (decode table.now) (lent_setting maps.now limit)) (drop from (take to (slots_of events.now)))) × (result.found ≡ passed_in (decode table.now) (lent_setting maps.now limit) (drop result.at (take to (slots_of events.now)))) }
{
    for at in from..to {
        match pass(table, maps, limit, events, at, to) {
            Passed::No => {}
            found => return Start { at, found },
        }
    }
    Start {
        at: to,
        found: Passed::No,
    }
}
