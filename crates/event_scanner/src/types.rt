// `<type>` and `(count)`, and what stands after an event.
ghost use Rattle.std.specs.Prelude.{◌≡◌, ◌≤◌, ◌<◌, length};
ghost use Rattle.model.specs.Events.{type_from, type_at, count_close, count_plus, count_digits, count_from, count_at, after_event_from, after_event_at};

use model::scan::{AfterEvent, Class, CountRead, TypeRead};
use scanner::bytes::{byte_at, run_end, skip};

pub fn type_from(l: &[u8], start: usize, end: usize, close: usize) -> TypeRead
    ensures { result ≡ type_from l.now start end close }
{
    if end == start {
        return TypeRead::Broken;
    }
    if byte_at(l, close) == b'>' {
        return TypeRead::Type {
            start,
            end,
            next: close + 1,
        };
    }
    TypeRead::Broken
}

// The type at a position that holds `<`.
pub fn type_at(l: &[u8], at: usize) -> TypeRead
    requires { at < length l.now }
    ensures { result ≡ type_at l.now at }
{
    let start = skip(l, at + 1);
    let end = run_end(l, start, Class::Name);
    let close = skip(l, end);
    type_from(l, start, end, close)
}

pub fn count_close(l: &[u8], start: usize, end: usize, plus: bool, close: usize) -> CountRead
    ensures { result ≡ count_close l.now start end plus close }
{
    if byte_at(l, close) == b')' {
        return CountRead::Digits {
            start,
            end,
            plus,
            next: close + 1,
        };
    }
    CountRead::Broken
}

pub fn count_plus(l: &[u8], start: usize, end: usize, at: usize) -> CountRead
    ensures { result ≡ count_plus l.now start end at }
{
    if byte_at(l, at) == b'+' {
        let close = skip(l, at + 1);
        return count_close(l, start, end, true, close);
    }
    count_close(l, start, end, false, at)
}

// The digits of a count, and all after them up to the closing bracket.
pub fn count_digits(l: &[u8], start: usize) -> CountRead
    requires { start ≤ length l.now }
    ensures { result ≡ count_digits l.now start }
{
    let stop = run_end(l, start, Class::Digit);
    if stop == start {
        return CountRead::Broken;
    }
    let after = skip(l, stop);
    count_plus(l, start, stop, after)
}

// At a position past blanks.
pub fn count_from(l: &[u8], at: usize) -> CountRead
    ensures { result ≡ count_from l.now at }
{
    if byte_at(l, at) == b'(' {
        let start = skip(l, at + 1);
        return count_digits(l, start);
    }
    CountRead::Absent(at)
}

pub fn count_at(l: &[u8], at: usize) -> CountRead
    requires { at ≤ length l.now }
    ensures { result ≡ count_at l.now at }
{
    let start = skip(l, at);
    count_from(l, start)
}

// At a position past blanks.
pub fn after_event_from(l: &[u8], at: usize) -> AfterEvent
    ensures { result ≡ after_event_from l.now at }
{
    let b = byte_at(l, at);
    if b == b',' {
        return AfterEvent::Comma(at + 1);
    }
    if b == b':' {
        return AfterEvent::Colon(at + 1);
    }
    AfterEvent::Broken
}

pub fn after_event_at(l: &[u8], at: usize) -> AfterEvent
    requires { at ≤ length l.now }
    ensures { result ≡ after_event_at l.now at }
{
    let start = skip(l, at);
    after_event_from(l, start)
}
