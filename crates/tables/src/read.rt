// The entries of a table, read by value. Each answer is a definition of specs/Reading on the bytes, whole or not.
#![tactic(auto, unfolding(crate::specs::Reading::directive_in, crate::specs::Reading::merged_in, crate::specs::Reading::first_length_in, crate::specs::Reading::second_length_in, crate::specs::Reading::production_total, crate::specs::Reading::event_total, crate::specs::Reading::call_total, crate::specs::Reading::parameter_total, crate::specs::Reading::parameter_entry, crate::specs::Reading::mark_entry, crate::specs::Reading::name_entry, crate::specs::Reading::call_parameters, crate::specs::Reading::first_parameter, crate::specs::Reading::keysyms_entry, crate::specs::Reading::event_from_words, crate::specs::Reading::event_entry, crate::specs::Reading::production_events, crate::specs::Reading::production_calls, crate::specs::Reading::first_event, crate::specs::Reading::first_call))]

ghost use Rattle.std.specs.Prelude.{◌≡◌, ◌+◌, ◌*◌, ◌≤◌, ◌<◌, length};
ghost use Rattle.words.specs.Words.{word_at};
ghost use Rattle.tables.specs.Reading.{directive_in, merged_in, first_length_in, second_length_in, production_total, event_total, call_total, parameter_total, parameter_entry, mark_entry, name_entry, call_parameters, first_parameter, is_flag, detail_from_word, keysyms_entry, event_from_words, event_entry, production_events, production_calls, first_event, first_call};
ghost use Rattle.tables.specs.Layout.{table_length};

use crate::places;
use model::events::{Detail, Directive, KeptEvent, Keysyms};
use model::scan::Span;

// ---- The header

pub fn directive(l: &[u8]) -> Directive
    requires { table_length ≤ length l.now }
    ensures { result ≡ directive_in l.now }
{
    match words::word_at(l, places::DIRECTIVE) {
        1 => Directive::Override,
        2 => Directive::Augment,
        _ => Directive::Replace,
    }
}

pub fn merged(l: &[u8]) -> bool
    requires { table_length ≤ length l.now }
    ensures { result ≡ merged_in l.now }
{
    words::word_at(l, places::MERGED) == 1
}

pub fn first_length(l: &[u8]) -> usize
    requires { table_length ≤ length l.now }
    ensures { result ≡ first_length_in l.now }
{
    usize::from(words::word_at(l, places::FIRST_LENGTH))
}

pub fn second_length(l: &[u8]) -> usize
    requires { table_length ≤ length l.now }
    ensures { result ≡ second_length_in l.now }
{
    usize::from(words::word_at(l, places::SECOND_LENGTH))
}

pub fn production_count(l: &[u8]) -> usize
    requires { table_length ≤ length l.now }
    ensures { result ≡ production_total l.now }
{
    usize::from(words::word_at(l, places::PRODUCTIONS))
}

pub fn event_count(l: &[u8]) -> usize
    requires { table_length ≤ length l.now }
    ensures { result ≡ event_total l.now }
{
    usize::from(words::word_at(l, places::EVENTS))
}

pub fn call_count(l: &[u8]) -> usize
    requires { table_length ≤ length l.now }
    ensures { result ≡ call_total l.now }
{
    usize::from(words::word_at(l, places::CALLS))
}

pub fn parameter_count(l: &[u8]) -> usize
    requires { table_length ≤ length l.now }
    ensures { result ≡ parameter_total l.now }
{
    usize::from(words::word_at(l, places::PARAMETERS))
}

// ---- Productions

pub fn production_events(l: &[u8], p: usize) -> usize
    requires { (table_length ≤ length l.now) × (p < 64) }
    ensures { result ≡ production_events l.now p }
{
    usize::from(words::word_at(l, places::PRODUCTION_EVENTS + p))
}

pub fn production_calls(l: &[u8], p: usize) -> usize
    requires { (table_length ≤ length l.now) × (p < 64) }
    ensures { result ≡ production_calls l.now p }
{
    usize::from(words::word_at(l, places::PRODUCTION_CALLS + p))
}

// The place of a production's first event among all.
pub fn events_from(l: &[u8], p: usize) -> usize
    requires { (table_length ≤ length l.now) × (p ≤ 64) }
    ensures { result ≡ first_event l.now p }
{
    words::sum(l, places::PRODUCTION_EVENTS, p) as usize
}

// The place of a production's first call among all.
pub fn calls_from(l: &[u8], p: usize) -> usize
    requires { (table_length ≤ length l.now) × (p ≤ 64) }
    ensures { result ≡ first_call l.now p }
{
    words::sum(l, places::PRODUCTION_CALLS, p) as usize
}

// ---- Calls and parameters

// Whether the call came from the second text.
pub fn call_mark(l: &[u8], i: usize) -> bool
    requires { (table_length ≤ length l.now) × (i < 128) }
    ensures { result ≡ mark_entry l.now i }
{
    words::word_at(l, places::MARKS + i) == 1
}

pub fn call_name(l: &[u8], i: usize) -> Span
    requires { (table_length ≤ length l.now) × (i < 128) }
    ensures { result ≡ name_entry l.now i }
{
    Span {
        start: usize::from(words::word_at(l, places::NAME_STARTS + i)),
        len: usize::from(words::word_at(l, places::NAME_LENGTHS + i)),
    }
}

pub fn call_parameters(l: &[u8], i: usize) -> usize
    requires { (table_length ≤ length l.now) × (i < 128) }
    ensures { result ≡ call_parameters l.now i }
{
    usize::from(words::word_at(l, places::CALL_PARAMETERS + i))
}

// The place of a call's first parameter among all.
pub fn parameters_from(l: &[u8], i: usize) -> usize
    requires { (table_length ≤ length l.now) × (i ≤ 128) }
    ensures { result ≡ first_parameter l.now i }
{
    words::sum(l, places::CALL_PARAMETERS, i) as usize
}

pub fn parameter_span(l: &[u8], i: usize) -> Span
    requires { (table_length ≤ length l.now) × (i < 256) }
    ensures { result ≡ parameter_entry l.now i }
{
    Span {
        start: usize::from(words::word_at(l, places::PARAMETER_STARTS + i)),
        len: usize::from(words::word_at(l, places::PARAMETER_LENGTHS + i)),
    }
}

// ---- Events

// Whether a flag is set: 1, 2, 4 or 8.
pub fn is_flag(value: u16, flags: u16) -> bool
    requires { 0 < value }
    ensures { result ≡ is_flag value flags }
{
    flags / value % 2 == 1
}

// A number of two words.
fn joined(low: u16, high: u16) -> u32
    ensures { result ≡ low + 65536 * high }
{
    u32::from(low) + 65536 * u32::from(high)
}

fn detail_of(flags: u16, low: u16, high: u16) -> Detail
    ensures { result ≡ detail_from_word (is_flag 4 flags) (low + 65536 * high) }
{
    if is_flag(4, flags) {
        Detail::Value(joined(low, high))
    } else {
        Detail::Unspecified
    }
}

fn event_of(
    code: u16,
    count: u16,
    set: u16,
    clear: u16,
    flags: u16,
    low: u16,
    high: u16,
    keysyms: Keysyms,
) -> KeptEvent
    ensures { result ≡ event_from_words code count set clear flags low high keysyms }
{
    KeptEvent {
        code: (code % 256) as u8,
        set,
        clear,
        colon: is_flag(1, flags),
        clause: is_flag(2, flags),
        detail: detail_of(flags, low, high),
        count: (count % 256) as u8,
        bang: is_flag(8, flags),
        names: (flags / 256 % 256) as u8,
        keysyms,
    }
}

// The number of the two words at these places.
pub fn joined_at(l: &[u8], low: usize, high: usize) -> u32
    requires { (2 * low + 2 ≤ length l.now) × (2 * high + 2 ≤ length l.now) }
    ensures { result ≡ word_at l.now low + 65536 * word_at l.now high }
{
    joined(words::word_at(l, low), words::word_at(l, high))
}

// The keysyms after `@` of an event.
pub fn keysyms_at(l: &[u8], i: usize) -> Keysyms
    requires { (table_length ≤ length l.now) × (i < 256) }
    ensures { result ≡ keysyms_entry l.now i }
{
    Keysyms {
        first: joined_at(l, places::FIRST_LOWS + i, places::FIRST_HIGHS + i),
        second: joined_at(l, places::SECOND_LOWS + i, places::SECOND_HIGHS + i),
        third: joined_at(l, places::THIRD_LOWS + i, places::THIRD_HIGHS + i),
        fourth: joined_at(l, places::FOURTH_LOWS + i, places::FOURTH_HIGHS + i),
    }
}

pub fn event_at(l: &[u8], i: usize) -> KeptEvent
    requires { (table_length ≤ length l.now) × (i < 256) }
    ensures { result ≡ event_entry l.now i }
{
    event_of(
        words::word_at(l, places::CODES + i),
        words::word_at(l, places::COUNTS + i),
        words::word_at(l, places::SETS + i),
        words::word_at(l, places::CLEARS + i),
        words::word_at(l, places::FLAGS + i),
        words::word_at(l, places::LOWS + i),
        words::word_at(l, places::HIGHS + i),
        keysyms_at(l, i),
    )
}
