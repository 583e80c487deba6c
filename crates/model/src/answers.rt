// What the public operations answer. specs/Numbers gives document 01's number and values for each case.
use crate::events::{Event, KeptEvent};

// An event of a text, judged.
#[derive(Clone, Copy)]
pub enum Judged {
    Keep(KeptEvent),
    // It names more keysyms after `@` than an event may: a limit of its line, which is judged after all its events.
    Crowded,
    Refuse(u8),
}

// The compiler.
#[derive(Clone, Copy)]
pub enum Compiled {
    Accepted,
    Refused { number: u8, place: usize },
}

// The merger.
#[derive(Clone, Copy)]
pub enum Merged {
    Accepted,
    Refused(u8),
}

// The canonical writer: how many bytes were written.
#[derive(Clone, Copy)]
pub enum Written {
    Accepted(usize),
    Refused(u8),
}

// How many productions, calls or parameters there are.
#[derive(Clone, Copy)]
pub enum Counted {
    Accepted(usize),
    Refused(u8),
}

// Where a call's name or a parameter stands, in the first text or in the second.
#[derive(Clone, Copy)]
pub enum Located {
    First { start: usize, len: usize },
    Second { start: usize, len: usize },
    Refused(u8),
}

// The reader of records.
#[derive(Clone, Copy)]
pub enum RecordRead {
    Event(Event),
    Refused(u8),
}

// The matcher.
#[derive(Clone, Copy)]
pub enum Matched {
    Refused(u8),
    // No production has an event of this type.
    Dropped,
    // The event is in the history, and none is selected at it.
    Heard,
    Selected(usize),
}
