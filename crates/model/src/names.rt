// What names stand for.
use crate::events::Detail;

// The modifier that an event type's name adds.
#[derive(Clone, Copy)]
pub enum Added {
    Nothing,
    // This modifier bit is asked set.
    Modifier(u8),
    // At least one button.
    AnyButton,
    // Meta is listed.
    Meta,
}

// An event type's name: the code, what it adds, and the detail that it fixes.
#[derive(Clone, Copy)]
pub struct EventType {
    pub code: u8,
    pub added: Added,
    pub detail: Detail,
}

#[derive(Clone, Copy)]
pub enum TypeName {
    Known(EventType),
    Unknown,
}

#[derive(Clone, Copy)]
pub enum ModifierName {
    // A modifier bit, 0..12.
    Bit(u8),
    // Meta, Alt, Hyper or Super, 0..3: the modifier map gives its bits.
    Named(u8),
    Unknown,
}

// What a written detail reads to.
#[derive(Clone, Copy)]
pub enum DetailRead {
    Value(u32),
    // No such name, a malformed number, or no detail is taken.
    Unknown,
    TooLarge,
    // An atom's name.
    NotBuilt,
}
