// `!` and `:` at the start of a modifier list, and one modifier.
ghost use Rattle.std.specs.Prelude.{◌≡◌, ◌≤◌, length};
ghost use Rattle.model.specs.Events.{lead_colon, lead_from, lead_at, keysym_from, name_from, modifier_name_at, modifier_from, modifier_at};

use model::scan::{Class, Lead, ModifierRead};
use scanner::bytes::{byte_at, run_end, skip};

pub fn lead_colon(l: &[u8], bang: bool, at: usize) -> Lead
    ensures { result ≡ lead_colon l.now bang at }
{
    if byte_at(l, at) == b':' {
        return Lead {
            bang,
            colon: true,
            next: at + 1,
        };
    }
    Lead {
        bang,
        colon: false,
        next: at,
    }
}

// At a position past blanks.
pub fn lead_from(l: &[u8], at: usize) -> Lead
    ensures { result ≡ lead_from l.now at }
{
    if byte_at(l, at) == b'!' {
        let next = skip(l, at + 1);
        return lead_colon(l, true, next);
    }
    lead_colon(l, false, at)
}

pub fn lead_at(l: &[u8], at: usize) -> Lead
    requires { at ≤ length l.now }
    ensures { result ≡ lead_at l.now at }
{
    let start = skip(l, at);
    lead_from(l, start)
}

// A run after `@`. Another `@` directly after it would be a modifier with nothing between.
pub fn keysym_from(tilde: bool, l: &[u8], start: usize, end: usize) -> ModifierRead
    ensures { result ≡ keysym_from tilde l.now start end }
{
    if end == start {
        return ModifierRead::Broken;
    }
    if byte_at(l, end) == b'@' {
        return ModifierRead::Broken;
    }
    ModifierRead::Keysym { tilde, start, end }
}

pub fn name_from(tilde: bool, l: &[u8], start: usize, end: usize) -> ModifierRead
    ensures { result ≡ name_from tilde l.now start end }
{
    if end == start {
        if byte_at(l, start) == b'@' {
            let run = start + 1;
            let stop = run_end(l, run, Class::Keysym);
            return keysym_from(tilde, l, run, stop);
        }
        return ModifierRead::Broken;
    }
    let after = byte_at(l, end);
    if after == b'@' {
        return ModifierRead::Broken;
    }
    ModifierRead::Name { tilde, start, end }
}

// A modifier whose `~` is read already.
pub fn modifier_name_at(tilde: bool, l: &[u8], at: usize) -> ModifierRead
    requires { at ≤ length l.now }
    ensures { result ≡ modifier_name_at tilde l.now at }
{
    let end = run_end(l, at, Class::Name);
    name_from(tilde, l, at, end)
}

// At a position past blanks.
pub fn modifier_from(l: &[u8], at: usize) -> ModifierRead
    requires { at ≤ length l.now }
    ensures { result ≡ modifier_from l.now at }
{
    let b = byte_at(l, at);
    if b == b'<' {
        return ModifierRead::End(at);
    }
    if b == b'~' {
        let start = skip(l, at + 1);
        return modifier_name_at(true, l, start);
    }
    modifier_name_at(false, l, at)
}

// The next modifier, or the `<` that ends the list.
pub fn modifier_at(l: &[u8], at: usize) -> ModifierRead
    requires { at ≤ length l.now }
    ensures { result ≡ modifier_at l.now at }
{
    let start = skip(l, at);
    modifier_from(l, start)
}
