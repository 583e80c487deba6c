// What an event that is heard does to the state.
ghost use Rattle.std.specs.Prelude.{◌≡◌, true, cond, ◌&&◌, max, ◌≤◌, ◌<◌, ltb, length, take, drop};
ghost use Rattle.records.specs.Ranges.{EventRanges};
ghost use Rattle.model.specs.Codes.{is_motion};
ghost use Rattle.model.specs.Setting.{Setting};
ghost use Rattle.model.specs.Tables.{Table};
ghost use Rattle.model.specs.Selection.{ends_in, falls_back};
ghost use Rattle.model.specs.Matching.{reading_of};
ghost use Rattle.machine.specs.Kept.{left, hear};
ghost use Rattle.tables.specs.Reading.{decode};
ghost use Rattle.tables.specs.Whole.{whole};
ghost use Rattle.states.specs.State.{slots_of, in_slots, whole_state, kept_of};
ghost use Rattle.keyboard.specs.Maps.{lent_setting};
ghost use Rattle.resolving.specs.Gathering.{MapsReady};
ghost use Rattle.follow.specs.Follow.{WalkReady};
ghost use Rattle.acting.specs.Moves.{moves, kept_in, left_marks, short_marks, answer_with, restarted};
ghost use Rattle.acting.specs.Act.{step_answer};

use crate::Answer;
use model::answers::Matched;
use model::events::Event;
use states::{State, slots};
use walk::Passed;

// What is left when an event takes its place: how many events, how many of them are used up, and whether a context is open.
#[derive(Clone, Copy)]
pub struct Left {
    pub kept: usize,
    pub selected: usize,
    pub open: bool,
}

// A motion directly after a motion replaces it.
fn replaces(events: &[u8], kept: usize, x: Event) -> bool
    requires { (length events.now ≡ 200) × (kept ≤ 24) }
    ensures { result ≡ is_motion x.code && ends_in moves (take kept (slots_of events.now)) }
{
    x.code == slots::MOTION && kept != 0 && slots::motion_at(events, kept - 1)
}

// A mark at the event that is replaced falls back by one. (No `min`: a mark past it, which no state has, stays.)
fn fallen_back(place: usize, mark: usize) -> usize
    requires { 0 < place }
    ensures { result ≡ falls_back place mark }
{
    if mark == place { place - 1 } else { mark }
}

// Without the last event, which is replaced. A context opened at it is closed.
fn shortened(kept: usize, selected: usize, open: bool) -> Left
    requires { 0 < kept }
    ensures { result ≡ short_marks kept selected «open» }
{
    Left {
        kept: kept - 1,
        selected: fallen_back(kept, selected),
        open: open & (kept != 1),
    }
}

// What is left for an event, whatever the table: without the event that it replaces, or the open context, or nothing.
fn left_for(events: &[u8], kept: usize, selected: usize, open: bool, x: Event) -> Left
    requires { (length events.now ≡ 200) × (kept ≤ 24) }
    ensures { (t : Table) (setting : Setting) → result ≡ left_marks (left (reading_of t setting) (kept_in events.now kept selected «open») x) }
{
    if replaces(events, kept, x) {
        return shortened(kept, selected, open);
    }
    if open {
        return Left {
            kept,
            selected,
            open,
        };
    }
    Left {
        kept: 0,
        selected: 0,
        open: false,
    }
}

// Events from..to, moved to the first slots; the others are zero. (`copy_from_slice` of their bytes took longer at each key that
// misses.)
fn shifted(events: &[u8], from: usize, to: usize) -> [u8; 200]
    requires { (length events.now ≡ 200) × (from ≤ to) × (to ≤ 25) }
    ensures { result ≡ in_slots (drop from (take to (slots_of events.now))) }
{
    let mut slots = [0u8; 200];
    for i in from..to {
        slots::put_event(&mut slots, i - from, slots::event_at(events, i));
    }
    slots
}

// The answer where a pass found this of `kept` events. At a selection all of them are used up.
fn answered(found: Passed, kept: usize, selected: usize, open: bool, events: [u8; 200]) -> Answer
    ensures { result ≡ answer_with found kept selected «open» events }
{
    let (matched, selected) = match found {
        Passed::Chosen(p) => (Matched::Selected(p), kept),
        Passed::Prefix | Passed::No => (Matched::Heard, selected),
    };
    Answer {
        matched,
        state: State {
            kept,
            selected,
            open,
            events,
        },
    }
}

// The first event that is kept, where `at` is the new start or, with none, `to`: with no context open a motion keeps those from
// `used` on, at which a motion in its place might begin a context, and another event none.
fn kept_from(at: usize, used: usize, to: usize, moving: bool) -> usize
    ensures { result ≡ cond (ltb at to) at (cond moving used to) }
{
    if at < to {
        return at;
    }
    if moving { used } else { to }
}

// No context goes on: one opens at the first start from `used` on, or none is open. `moving` says that the last event is a motion.
fn restart(
    table: &[u8],
    maps: &[u8],
    limit: u32,
    events: &[u8],
    used: usize,
    to: usize,
    moving: bool,
) -> Answer
    requires { WalkReady table.now maps.now events.now to × (used ≤ to) }
    ensures { result ≡ restarted (decode table.now) (lent_setting maps.now limit) moving (drop used (take to (slots_of events.now))) }
{
    let start = walk::first_start(table, maps, limit, events, used, to);
    let from = kept_from(start.at, used, to, moving);
    let slots = shifted(events, from, to);
    answered(start.found, to - from, 0, start.at < to, slots)
}

// An event that is heard. It takes the place after what is left, also where that is the place of the event that it replaces.
pub fn heard(table: &[u8], maps: &[u8], limit: u32, state: State, x: Event) -> Answer
    requires { ((whole table.now ≡ true) × MapsReady maps.now) × ((whole_state state ≡ true) × EventRanges x) }
    ensures { result ≡ step_answer (hear (decode table.now) (lent_setting maps.now limit) (kept_of state) x) }
{
    let mut events = state.events;
    let left = left_for(&events, state.kept, state.selected, state.open, x);
    slots::put_event(&mut events, left.kept, x);
    let to = left.kept + 1;
    let moving = x.code == slots::MOTION;
    if !left.open {
        return restart(table, maps, limit, &events, 0, to, moving);
    }
    match walk::pass(table, maps, limit, &events, 0, to) {
        // No new start may take the old one, or an event up to the last selection.
        Passed::No => restart(
            table,
            maps,
            limit,
            &events,
            left.selected.max(1),
            to,
            moving,
        ),
        found => answered(found, to, left.selected, true, events),
    }
}
