// The matcher's state, by value. Between calls it keeps the events of the open context or, where none is open, those that a motion
// in the place of the last might still begin a context at; and nothing else.
#![tactic(auto)]

ghost use Rattle.std.specs.Prelude.{◌≡◌, ◌≤◌, eqb};
ghost use Rattle.states.specs.State.{event_whole, used_whole, slots_whole, marks_whole, last_whole, whole_state, fresh_state, state_limits};
ghost use Rattle.std.specs.List.{list_all};
ghost use Rattle.words.specs.Runs.{every};

use model::events::Event;

pub mod slots;

#[derive(Clone, Copy)]
pub struct State {
    // How many events are kept.
    pub kept: usize,
    // How many of them lie at or before the last event at which anything was selected.
    pub selected: usize,
    // Whether a context is open.
    pub open: bool,
    // The events of the open context or, where none is open, those that a motion in the place of the last might still begin a
    // context at. 25 slots of 8 bytes, one slot more than are kept: code, detail, state and time, the least significant byte
    // first. Those that are not used are zero, so that states that keep the same are equal.
    pub events: [u8; 200],
}

impl State {
    // The limits of a table, and of a context.
    pub const TEXT_BYTES: usize = 8192;

    pub const PRODUCTIONS: usize = 64;

    pub const PRODUCTION_EVENTS: usize = 24;

    pub const EVENTS: usize = 256;

    pub const PRODUCTION_CALLS: usize = 8;

    pub const CALLS: usize = 128;

    pub const CALL_PARAMETERS: usize = 8;

    pub const PARAMETERS: usize = 256;

    pub const CONTEXT_EVENTS: usize = 24;

    // These constants in this order: the contract says of each which limit it is.
    pub fn limits() -> [usize; 9]
        ensures { result ≡ state_limits }
    {
        [
            State::TEXT_BYTES,
            State::PRODUCTIONS,
            State::PRODUCTION_EVENTS,
            State::EVENTS,
            State::PRODUCTION_CALLS,
            State::CALLS,
            State::CALL_PARAMETERS,
            State::PARAMETERS,
            State::CONTEXT_EVENTS,
        ]
    }

    // No events: all zero.
    #[tactic(auto, unfolding(crate::specs::State::state_with, crate::specs::State::in_slots, crate::specs::State::events_bytes, words::specs::Words::zeros))]
    pub fn fresh() -> State
        ensures { result ≡ fresh_state }
    {
        State {
            kept: 0,
            selected: 0,
            open: false,
            events: [0; 200],
        }
    }
}

// An event with the ranges of one that was read from a record.
#[tactic(auto, unfolding(crate::specs::State::event_whole))]
fn event_whole(e: Event) -> bool
    ensures { result ≡ event_whole e }
{
    (2..=34).contains(&e.code) & (e.state < 8192) & ((3 < e.code) | (8 <= e.detail))
}

// Whether every slot that is used holds such an event.
#[tactic(auto, using(crate::proofs::SlotLaws::used_none, crate::proofs::SlotLaws::used_more))]
fn used_whole(events: &[u8; 200], kept: usize) -> bool
    requires { kept ≤ 24 }
    ensures { result ≡ every (used_whole events.now) 0 kept }
{
    let mut whole = true;
    for i in 0..kept {
        whole &= event_whole(slots::event_at(events, i));
    }
    whole
}

// Whether bytes are zero. No early exit, so that the loop is compiled to vector instructions.
fn bytes_zero(bytes: &[u8]) -> bool
    ensures { result ≡ list_all (λ b. eqb b 0) bytes.now }
{
    let mut clean = true;
    for b in bytes {
        clean &= *b == 0;
    }
    clean
}

// Every slot holds an event that is kept or, past them, zero.
fn slots_whole(events: &[u8; 200], kept: usize) -> bool
    requires { kept ≤ 24 }
    ensures { result ≡ slots_whole events.now kept }
{
    used_whole(events, kept) & bytes_zero(&events[8 * kept..])
}

// An open context has an event; where none is open nothing is used up.
#[tactic(auto, unfolding(crate::specs::State::marks_whole))]
fn marks_whole(kept: usize, selected: usize, open: bool) -> bool
    ensures { result ≡ marks_whole kept selected «open» }
{
    (kept <= State::CONTEXT_EVENTS)
        & (selected <= kept)
        & ((open & (kept != 0)) | (!open & (selected == 0)))
}

// Where no context is open, the last event is one that a motion replaces.
#[tactic(auto, unfolding(crate::specs::State::last_whole))]
fn last_whole(events: &[u8; 200], kept: usize, open: bool) -> bool
    requires { kept ≤ 24 }
    ensures { result ≡ last_whole events.now kept «open» }
{
    open || kept == 0 || slots::motion_at(events, kept - 1)
}

// Whether every part of a state is in its range. Every state that a call leaves is whole, and so are some that none leaves.
#[tactic(auto, using(crate::proofs::StateLaws::marks_few), unfolding(crate::specs::State::whole_state))]
pub fn state_whole(s: State) -> bool
    ensures { result ≡ whole_state s }
{
    marks_whole(s.kept, s.selected, s.open)
        && slots_whole(&s.events, s.kept)
        && last_whole(&s.events, s.kept, s.open)
}
