// The left side of a production: its events, up to the colon.
ghost use Rattle.std.specs.Prelude.{◌≡◌, ◌≤◌, length};
ghost use Rattle.model.specs.Events.{left_side};
ghost use Rattle.event_scanner.specs.LeftSide.{event_step, left_of};

use crate::events::{EventRead, read_event};
use crate::types::after_event_at;
use model::scan::AfterEvent;

// What stands after the event, or the key sequence, at a position.
pub fn event_step(l: &[u8], at: usize) -> AfterEvent
    requires { at ≤ length l.now }
    ensures { result ≡ event_step l.now at }
{
    match read_event(l, at) {
        EventRead::Broken => AfterEvent::Broken,
        EventRead::Plain(spans) => {
            let detail = spans.detail;
            after_event_at(l, detail.end)
        }
        EventRead::Keys {
            start: _,
            count: _,
            next,
        } => after_event_at(l, next),
    }
}

// Whether the events of a line are in the grammar, and where its calls begin.
#[derive(Clone, Copy)]
pub enum LeftRead {
    Broken,
    Left { next: usize },
}

pub fn left_side(l: &[u8]) -> LeftRead
    ensures { result ≡ left_of (left_side l.now) }
{
    let mut at: usize = 0;
    loop {
        match event_step(l, at) {
            AfterEvent::Broken => return LeftRead::Broken,
            AfterEvent::Comma(next) => {
                at = next;
            }
            AfterEvent::Colon(next) => return LeftRead::Left { next },
        }
    }
}
