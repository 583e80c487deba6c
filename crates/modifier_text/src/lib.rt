// Modifier lists as they are written.
#![tactic(auto, unfolding(model::specs::Canonical::writes_bang, model::specs::Canonical::asks_every, crate::specs::Places::order_at, crate::specs::Places::is_brief, crate::specs::Places::has_place, crate::specs::Places::place_text))]

ghost use Rattle.std.specs.Prelude.{◌≡◌, not, ◌||◌, ◌+◌, ◌≤◌, ◌<◌};
ghost use Rattle.model.specs.Modifiers.{is_testable, asks_bit};
ghost use Rattle.model.specs.Named.{kept_as_written};
ghost use Rattle.model.specs.Canonical.{asks_every, writes_bang, bit_text, list_text, modifiers_text};
ghost use Rattle.writing.specs.Overlay.{Put};
ghost use Rattle.modifier_text.specs.Places.{order_at, is_brief, listed_bits, has_place, place_text};

use model::events::KeptEvent;
use writing::bytes;

// Whether the event keeps `!` or names, and so its plain names as they were written.
fn kept_as_written(e: KeptEvent) -> bool
    ensures { result ≡ kept_as_written e }
{
    e.bang || e.names != 0 || e.keysyms.first != 0
}

// Whether a bit is asked set or clear, or is not testable.
fn is_asked(e: KeptEvent, k: u32) -> bool
    requires { k < 13 }
    ensures { result ≡ (not (is_testable e k) || asks_bit e k) }
{
    (e.colon & (k < 2)) | modifiers::bit(k, e.set) | modifiers::bit(k, e.clear)
}

// Whether every testable bit is asked set or clear, on an event type that takes modifiers.
fn asks_every(e: KeptEvent) -> bool
    ensures { result ≡ asks_every e }
{
    match e.code {
        2..=8 => (0..13).all(|k| is_asked(e, k)),
        _ => false,
    }
}

fn writes_bang(e: KeptEvent) -> bool
    ensures { result ≡ writes_bang e }
{
    if kept_as_written(e) {
        e.bang
    } else {
        asks_every(e)
    }
}

// Whether `!` says that every bit that is not listed is clear, so that only those asked set are listed.
fn is_brief(e: KeptEvent) -> bool
    ensures { result ≡ is_brief e }
{
    writes_bang(e) && !kept_as_written(e)
}

// The bits in the order of writing: Ctrl Shift Lock Mod1..5 Button1..5.
const WRITING_ORDER: &[u8; 13] = &[2, 0, 1, 3, 4, 5, 6, 7, 8, 9, 10, 11, 12];

// The j-th of them.
fn order_at(j: u32) -> u32
    requires { j < 13 }
    ensures { (result ≡ order_at j) × (result < 13) }
{
    u32::from(WRITING_ORDER[j as usize])
}

// The bits that are listed: those asked set and, where no `!` says it of them, those asked clear.
#[tactic(auto, unfolding(crate::specs::Places::listed_bits))]
fn listed_bits(e: KeptEvent) -> u16
    ensures { result ≡ listed_bits e }
{
    if is_brief(e) { e.set } else { e.set | e.clear }
}

// The texts of a list have places: 0..12 are those of the bits, in the order of writing, 13..28 those of the names' forms. The bits
// that are listed are joined once a list: with both masks tested at each place, a text of lists took a fifth longer to measure.
#[tactic(auto, using(crate::proofs::Bits::listed_bit), unfolding(crate::specs::Places::has_place))]
fn has_place(e: KeptEvent, bits: u16, j: u32) -> bool
    requires { (j < 29) × (bits ≡ listed_bits e) }
    ensures { result ≡ has_place e j }
{
    if j < 13 {
        modifiers::bit(order_at(j), bits)
    } else {
        name_text::has_form(e, j - 13)
    }
}

fn put_bit(out: &mut [u8], at: usize, e: KeptEvent, k: u32) -> usize
    requires { (at ≤ 8900000000) × (k < 13) }
    ensures { (Put out.old out.new at result (bit_text e k)) × (result ≤ at + 8) }
{
    let next = bytes::put_if(out, at, !modifiers::bit(k, e.set), b'~');
    bytes::put_name(out, next, names::places::bit_place(k))
}

fn put_place(out: &mut [u8], at: usize, e: KeptEvent, j: u32) -> usize
    requires { (at ≤ 8700000000) × (j < 29) }
    ensures { (Put out.old out.new at result (place_text e j)) × (result ≤ at + 12) }
{
    if j < 13 {
        put_bit(out, at, e, order_at(j))
    } else {
        name_text::put_form(out, at, e, j - 13)
    }
}

// The texts that the event has, n of them so far, with a blank between each two. `put_joined` would count those that it has not.
fn put_list(out: &mut [u8], at: usize, e: KeptEvent) -> usize
    requires { at ≤ 8640000000 }
    ensures { (Put out.old out.new at result (list_text e)) × (result ≤ at + 377) }
{
    let bits = listed_bits(e);
    let mut next = at;
    let mut n = 0;
    for j in 0..29 {
        if has_place(e, bits, j) {
            next = bytes::put_separator(out, next, n, b' ');
            next = put_place(out, next, e, j);
            n += 1;
        }
    }
    next
}

pub fn put_modifiers(out: &mut [u8], at: usize, e: KeptEvent) -> usize
    requires { at ≤ 8600000000 }
    ensures { (Put out.old out.new at result (modifiers_text e)) × (result ≤ at + 400) }
{
    let mut next = bytes::put_if(out, at, writes_bang(e), b'!');
    next = bytes::put_if(out, next, e.colon, b':');
    put_list(out, next, e)
}
