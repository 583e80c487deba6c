// The keysyms that a modifier list names after `@`, one at a time. They are kept rising in four slots: one more is carried
// from slot to slot until it finds its place, and where it takes a slot, what stood there is carried on.
#![tactic(auto)]

ghost use Rattle.std.specs.Prelude.{◌≡◌, ◌<◌};
ghost use Rattle.model.specs.Named.{listed_mark, mark_listed, no_keysyms};
ghost use Rattle.keysym_list.specs.Slots.{slot_passed, with_one_more, SlotsIn};

use model::events::Keysyms;

// The first four keysyms, and whether there are more.
#[derive(Clone, Copy)]
pub struct Slots {
    pub keysyms: Keysyms,
    pub over: bool,
}

// A slot that a carried number has passed, and what is carried on; 0 for nothing.
#[derive(Clone, Copy)]
struct Carried {
    slot: u32,
    carried: u32,
}

pub fn no_keysyms() -> Keysyms
    ensures { result ≡ no_keysyms }
{
    Keysyms {
        first: 0,
        second: 0,
        third: 0,
        fourth: 0,
    }
}

fn listed_mark(tilde: bool) -> u32
    ensures { result ≡ listed_mark tilde }
{
    if tilde { 0x40000000 } else { 0x20000000 }
}

// A slot's number with one more mark, where it has not got it.
fn mark_listed(tilde: bool, slot: u32) -> u32
    requires { slot < 0x80000000 }
    ensures { result ≡ mark_listed tilde slot }
{
    if tilde {
        if slot / 0x40000000 % 2 == 1 {
            return slot;
        }
        return slot + 0x40000000;
    }
    if slot / 0x20000000 % 2 == 1 {
        return slot;
    }
    slot + 0x20000000
}

fn pass(tilde: bool, slot: u32, carried: u32) -> Carried
    requires { slot < 0x80000000 }
    ensures { result ≡ slot_passed tilde slot carried }
{
    if carried == 0 {
        return Carried { slot, carried: 0 };
    }
    if slot == 0 {
        return Carried {
            slot: carried,
            carried: 0,
        };
    }
    let new = carried % 0x20000000;
    let old = slot % 0x20000000;
    if new < old {
        return Carried {
            slot: carried,
            carried: slot,
        };
    }
    if new == old {
        return Carried {
            slot: mark_listed(tilde, slot),
            carried: 0,
        };
    }
    Carried { slot, carried }
}

pub fn with_one_more(k: Keysyms, over: bool, tilde: bool, v: u32) -> Slots
    requires { SlotsIn k × (v < 0x20000000) }
    ensures { result ≡ with_one_more k over tilde v }
{
    let first = pass(tilde, k.first, v + listed_mark(tilde));
    let second = pass(tilde, k.second, first.carried);
    let third = pass(tilde, k.third, second.carried);
    let fourth = pass(tilde, k.fourth, third.carried);
    let keysyms = Keysyms {
        first: first.slot,
        second: second.slot,
        third: third.slot,
        fourth: fourth.slot,
    };
    Slots {
        keysyms,
        over: over | (fourth.carried != 0),
    }
}
