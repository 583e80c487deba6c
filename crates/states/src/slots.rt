// Events in bytes: slots of 8, as a state keeps them.
ghost use Rattle.std.specs.Prelude.{◌≡◌, ◌+◌, ◌*◌, ◌≤◌, length};
ghost use Rattle.model.specs.Codes.{is_motion};
ghost use Rattle.states.specs.State.{event_in, put_slot};

use model::events::Event;

// The code of a motion event.
pub const MOTION: u8 = 6;

// The event in slot j.
#[tactic(auto, using(crate::proofs::SlotLaws::event_at))]
pub fn event_at(events: &[u8], j: usize) -> Event
    requires { 8 * j + 8 ≤ length events.now }
    ensures { result ≡ event_in events.now j }
{
    let at = 8 * j;
    Event {
        code: events[at],
        detail: events[at + 1],
        time: keyboard::number_from(events, at + 4),
        state: words::word_at(events, 4 * j + 1),
    }
}

// Whether slot j holds a motion event.
#[tactic(auto, using(crate::proofs::SlotLaws::slot_code))]
pub fn motion_at(events: &[u8], j: usize) -> bool
    requires { 8 * j + 8 ≤ length events.now }
    ensures { result ≡ is_motion (event_in events.now j).code }
{
    events[8 * j] == MOTION
}

// Stores an event in slot j.
pub fn put_event(out: &mut [u8], j: usize, x: Event)
    requires { 8 * j + 8 ≤ length out.old }
    ensures { out.new ≡ put_slot out.old j x }
{
    let at = 8 * j;
    out[at] = x.code;
    out[at + 1] = x.detail;
    let [low, high] = x.state.to_le_bytes();
    out[at + 2] = low;
    out[at + 3] = high;
    let [first, second, third, fourth] = x.time.to_le_bytes();
    out[at + 4] = first;
    out[at + 5] = second;
    out[at + 6] = third;
    out[at + 7] = fourth;
}
