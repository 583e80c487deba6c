// An event as a 32-byte record gives it. Fields not named for its type are 0.
#[derive(Clone, Copy, Debug, PartialEq, Eq)]
pub struct Event {
    pub code: u8,
    // Keycode, button, motion detail, mode or request.
    pub detail: u8,
    pub time: u32,
    // Modifier bits 0..12.
    pub state: u16,
}

// What an event of a production asks of the detail.
#[derive(Clone, Copy, Debug, PartialEq, Eq)]
pub enum Detail {
    // Any value.
    Unspecified,
    // This keysym, button, motion detail, mode or request.
    Value(u32),
}

// The keysyms that an event names after `@`, rising, in the first places that there are. One is the keysym itself, with
// 0x20000000 added where it is listed and 0x40000000 added where it is listed with `~`; 0 stands for none.
#[derive(Clone, Copy, Debug, PartialEq, Eq)]
pub struct Keysyms {
    pub first: u32,
    pub second: u32,
    pub third: u32,
    pub fourth: u32,
}

// An event of a production as a table keeps it, before expansion.
#[derive(Clone, Copy, Debug, PartialEq, Eq)]
pub struct KeptEvent {
    pub code: u8,
    // Modifier bits asked set, and asked clear.
    pub set: u16,
    pub clear: u16,
    // Shift and Lock are applied to the keycode, and not tested.
    pub colon: bool,
    // At least one button must be down, with none of them asked set.
    pub clause: bool,
    pub detail: Detail,
    // 1..9; 1 where none is written.
    pub count: u8,
    // `!` beside names: it cannot be a mask before their bits are known.
    pub bang: bool,
    // Meta, Alt, Hyper and Super: bits 0..3 where they are listed, bits 4..7 where they are listed with `~`.
    pub names: u8,
    pub keysyms: Keysyms,
}

// The first line of a text: how its table merges into another.
#[derive(Clone, Copy)]
pub enum Directive {
    Replace,
    Override,
    Augment,
}
