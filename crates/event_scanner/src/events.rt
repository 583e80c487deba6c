// One event, or one key sequence, as the parts of the line that it is written in.
ghost use Rattle.std.specs.Prelude.{◌≡◌, ◌≤◌, ◌<◌, length};
ghost use Rattle.model.specs.Bytes.{skip};
ghost use Rattle.model.specs.Events.{type_at, count_at, events_at};
ghost use Rattle.event_scanner.specs.Spans.{detail_spans, count_spans, type_spans, list_spans, plain_spans, key_spans, spans_at, read_of};

use crate::keys::{KeysRead, read_keys};
use crate::types::{count_at, type_at};
use list_scanner::lists::{ListKind, ListRead, read_list};
use list_scanner::modifiers::lead_at;
use model::scan::{Class, CountRead, TypeRead};
use scanner::bytes::{byte_at, run_end, skip};

// From start up to end.
#[derive(Clone, Copy)]
pub struct Part {
    pub start: usize,
    pub end: usize,
}

#[derive(Clone, Copy)]
pub struct ListSpans {
    pub kind: ListKind,
    pub bang: bool,
    pub colon: bool,
    // Where the modifiers begin, past `!` and `:`.
    pub start: usize,
}

#[derive(Clone, Copy)]
pub enum CountSpan {
    Absent,
    Digits {
        start: usize,
        end: usize,
        plus: bool,
    },
}

#[derive(Clone, Copy)]
pub struct EventSpans {
    pub list: ListSpans,
    // The type's name.
    pub name: Part,
    pub count: CountSpan,
    // Empty where none is written; its end is where reading goes on.
    pub detail: Part,
}

#[derive(Clone, Copy)]
pub enum EventRead {
    Broken,
    Plain(EventSpans),
    // A key sequence: where its first character stands, and how many there are.
    Keys {
        start: usize,
        count: usize,
        next: usize,
    },
}

pub fn with_detail(l: &[u8], list: ListSpans, name: Part, count: CountSpan, at: usize) -> EventRead
    requires { at ≤ length l.now }
    ensures { result ≡ detail_spans l.now list name count (skip l.now at) }
{
    let start = skip(l, at);
    let end = run_end(l, start, Class::Detail);
    EventRead::Plain(EventSpans {
        list,
        name,
        count,
        detail: Part { start, end },
    })
}

pub fn with_count(l: &[u8], list: ListSpans, name: Part, at: usize) -> EventRead
    requires { at ≤ length l.now }
    ensures { result ≡ count_spans l.now list name (count_at l.now at) }
{
    match count_at(l, at) {
        CountRead::Broken => EventRead::Broken,
        CountRead::Absent(next) => with_detail(l, list, name, CountSpan::Absent, next),
        CountRead::Digits {
            start,
            end,
            plus,
            next,
        } => with_detail(l, list, name, CountSpan::Digits { start, end, plus }, next),
    }
}

// From the `<` on.
pub fn with_type(l: &[u8], list: ListSpans, at: usize) -> EventRead
    requires { at < length l.now }
    ensures { result ≡ type_spans l.now list (type_at l.now at) }
{
    match type_at(l, at) {
        TypeRead::Broken => EventRead::Broken,
        TypeRead::Type { start, end, next } => with_count(l, list, Part { start, end }, next),
    }
}

// From the first modifier on.
pub fn with_list(l: &[u8], bang: bool, colon: bool, at: usize) -> EventRead
    requires { at ≤ length l.now }
    ensures { result ≡ list_spans l.now bang colon at }
{
    match read_list(l, bang, colon, at) {
        ListRead::Broken => EventRead::Broken,
        ListRead::List { kind, end } => {
            let list = ListSpans {
                kind,
                bang,
                colon,
                start: at,
            };
            with_type(l, list, end)
        }
    }
}

pub fn read_plain(l: &[u8], at: usize) -> EventRead
    requires { at ≤ length l.now }
    ensures { result ≡ plain_spans l.now at }
{
    let lead = lead_at(l, at);
    with_list(l, lead.bang, lead.colon, lead.next)
}

// Past the opening quote.
pub fn read_key_sequence(l: &[u8], at: usize) -> EventRead
    requires { at ≤ length l.now }
    ensures { result ≡ key_spans l.now at }
{
    if byte_at(l, at) == b'"' {
        return EventRead::Broken;
    }
    match read_keys(l, at) {
        KeysRead::Broken => EventRead::Broken,
        KeysRead::Keys { count, next } => EventRead::Keys {
            start: at,
            count,
            next,
        },
    }
}

// What stands at a position: an event, a key sequence, or neither.
pub fn read_event(l: &[u8], at: usize) -> EventRead
    requires { at ≤ length l.now }
    ensures { (result ≡ spans_at l.now at) × (read_of l.now result ≡ events_at l.now at) }
{
    let start = skip(l, at);
    if byte_at(l, start) == b'"' {
        return read_key_sequence(l, start + 1);
    }
    read_plain(l, start)
}
