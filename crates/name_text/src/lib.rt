// Names of an event as they are written: Meta, Alt, Hyper, Super and its four keysyms, each in two forms, as it is and with `~`.
// The forms have numbers: 0..7 are those of Meta to Super, 8..15 those of the keysyms, and the odd ones have `~`.
#![tactic(auto, unfolding(crate::specs::Forms::keysym_at, crate::specs::Forms::form_tilde, crate::specs::Forms::has_form, crate::specs::Forms::form_word))]

ghost use Rattle.std.specs.Prelude.{◌≡◌, ◌++◌, ◌+◌, ◌≤◌, ◌<◌};
ghost use Rattle.model.specs.Lists.{bytes};
ghost use Rattle.model.specs.Named.{form_bit, marked_keysym, is_listed};
ghost use Rattle.model.specs.Canonical.{hexadecimal};
ghost use Rattle.writing.specs.Overlay.{Put};
ghost use Rattle.name_text.specs.Forms.{keysym_at, form_tilde, has_form, form_word, form_text};

use model::events::{KeptEvent, Keysyms};
use writing::{bytes, numbers};

fn keysym_at(keysyms: Keysyms, i: u32) -> u32
    ensures { result ≡ keysym_at keysyms i }
{
    match i {
        0 => keysyms.first,
        1 => keysyms.second,
        2 => keysyms.third,
        _ => keysyms.fourth,
    }
}

fn is_listed(tilde: bool, s: u32) -> bool
    ensures { result ≡ is_listed tilde s }
{
    let mark = if tilde { 0x40000000 } else { 0x20000000 };
    s / mark % 2 == 1
}

fn form_bit(tilde: bool, n: u32) -> u32
    requires { n < 4 }
    ensures { (result ≡ form_bit tilde n) × (result < 16) }
{
    if tilde { n + 4 } else { n }
}

fn form_tilde(j: u32) -> bool
    ensures { result ≡ form_tilde j }
{
    j % 2 == 1
}

// Whether the event has the form.
pub fn has_form(e: KeptEvent, j: u32) -> bool
    requires { j < 16 }
    ensures { result ≡ has_form e j }
{
    let tilde = form_tilde(j);
    if j < 8 {
        modifiers::bit(form_bit(tilde, j / 2), u16::from(e.names))
    } else {
        is_listed(tilde, keysym_at(e.keysyms, j / 2 - 4))
    }
}

fn put_keysym(out: &mut [u8], at: usize, s: u32) -> usize
    requires { at ≤ 8800000000 }
    ensures { (Put out.old out.new at result (bytes "@" ++ hexadecimal (marked_keysym s))) × (result ≤ at + 11) }
{
    let next = bytes::put_byte(out, at, b'@');
    numbers::put_hexadecimal(out, next, s % 0x20000000)
}

// What follows `~`, or stands without it.
fn put_word(out: &mut [u8], at: usize, e: KeptEvent, j: u32) -> usize
    requires { (at ≤ 8800000000) × (j < 16) }
    ensures { (Put out.old out.new at result (form_word e j)) × (result ≤ at + 11) }
{
    if j < 8 {
        bytes::put_name(out, at, names::places::long_place(j / 2))
    } else {
        put_keysym(out, at, keysym_at(e.keysyms, j / 2 - 4))
    }
}

pub fn put_form(out: &mut [u8], at: usize, e: KeptEvent, j: u32) -> usize
    requires { (at ≤ 8700000000) × (j < 16) }
    ensures { (Put out.old out.new at result (form_text e j)) × (result ≤ at + 12) }
{
    let next = bytes::put_if(out, at, form_tilde(j), b'~');
    put_word(out, next, e, j)
}
