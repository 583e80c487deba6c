// Events as they are written: modifiers, type, count and detail.
#![tactic(auto, unfolding(crate::specs::Named::place_or_number))]

ghost use Rattle.std.specs.Prelude.{◌≡◌, true, ◌++◌, ◌+◌, ◌≤◌, ◌<◌};
ghost use Rattle.model.specs.Lists.{bytes};
ghost use Rattle.model.specs.Canonical.{type_text, value_text, detail_text, count_text, event_text};
ghost use Rattle.names.specs.Places.{name_total};
ghost use Rattle.names.specs.Table.{longest_name};
ghost use Rattle.tables.specs.Fitting.{event_in_range};
ghost use Rattle.writing.specs.Overlay.{Put};
ghost use Rattle.event_text.specs.Named.{place_or_number};

use model::events::{Detail, KeptEvent};
use names::{places, table};
use writing::{bytes, key_names, numbers};

// `BtnMotion` where its clause is kept; any other type by the protocol's name.
fn put_type(out: &mut [u8], at: usize, e: KeptEvent) -> usize
    requires { (at ≤ 8900000000) × (2 ≤ e.code) × (e.code ≤ 34) }
    ensures { (Put out.old out.new at result (type_text e)) × (result ≤ at + longest_name) }
{
    let place = if e.clause {
        places::BUTTON_MOTION
    } else {
        places::type_place(e.code)
    };
    bytes::put_name(out, at, place)
}

fn put_count(out: &mut [u8], at: usize, n: u8) -> usize
    requires { at ≤ 8900000000 }
    ensures { (Put out.old out.new at result (count_text n)) × (result ≤ at + 11) }
{
    if n <= 1 {
        return at;
    }
    let mut next = bytes::put_byte(out, at, b'(');
    next = numbers::put_decimal(out, next, u32::from(n));
    bytes::put_byte(out, next, b')')
}

// A value from `low` on by its name, the first of `count` at a place of the table of names; any other in decimal.
fn put_named(out: &mut [u8], at: usize, v: u32, low: u32, count: u32, place: usize) -> usize
    requires { (at ≤ 8900000000) × (place + count ≤ name_total) × (low + count ≤ 8) }
    ensures { (Put out.old out.new at result (place_or_number v low count place)) × (result ≤ at + longest_name) }
{
    if (low..low + count).contains(&v) {
        bytes::put_name(out, at, place + (v - low) as usize)
    } else {
        numbers::put_decimal(out, at, v)
    }
}

fn put_value(out: &mut [u8], at: usize, code: u8, v: u32) -> usize
    requires { (at ≤ 8800000000) × (2 ≤ code) }
    ensures { (Put out.old out.new at result (value_text code v)) × (result ≤ at + longest_name) }
{
    match code {
        0..=3 => key_names::put_keysym(out, at, v),
        4 | 5 => put_named(out, at, v, 1, 5, table::BUTTONS),
        6 => put_named(out, at, v, 0, 2, table::MOTIONS),
        7..=10 => put_named(out, at, v, 0, 4, table::MODES),
        _ => put_named(out, at, v, 0, 3, table::REQUESTS),
    }
}

fn put_detail(out: &mut [u8], at: usize, e: KeptEvent) -> usize
    requires { (at ≤ 8800000000) × (2 ≤ e.code) }
    ensures { (Put out.old out.new at result (detail_text e.code e.detail)) × (result ≤ at + longest_name) }
{
    match e.detail {
        Detail::Unspecified => at,
        Detail::Value(v) => put_value(out, at, e.code, v),
    }
}

// `<type>(count)`.
fn put_counted(out: &mut [u8], at: usize, e: KeptEvent) -> usize
    requires { (at ≤ 8700000000) × (2 ≤ e.code) × (e.code ≤ 34) }
    ensures { (Put out.old out.new at result (bytes "<" ++ (type_text e ++ (bytes ">" ++ count_text e.count)))) × (result ≤ at + 1300) }
{
    let mut next = bytes::put_byte(out, at, b'<');
    next = put_type(out, next, e);
    next = bytes::put_byte(out, next, b'>');
    put_count(out, next, e.count)
}

pub fn put_event(out: &mut [u8], at: usize, e: KeptEvent) -> usize
    requires { (at ≤ 8500000000) × (event_in_range e ≡ true) }
    ensures { (Put out.old out.new at result (event_text e)) × (result ≤ at + 20000) }
{
    let mut next = modifier_text::put_modifiers(out, at, e);
    next = put_counted(out, next, e);
    put_detail(out, next, e)
}
