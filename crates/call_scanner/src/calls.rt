// One call's name, and one parameter.
ghost use Rattle.std.specs.Prelude.{◌≡◌, ◌≤◌, length};
ghost use Rattle.model.specs.Calls.{parameter_end, quoted_from, parameter_from, parameter_at, call_name_from, call_from, call_at};

use model::scan::{CallRead, Class, ParameterRead};
use scanner::bytes::{byte_at, run_end, skip};

// What stands after a parameter: the comma before the next, or the closing bracket.
pub fn parameter_end(l: &[u8], start: usize, end: usize, at: usize) -> ParameterRead
    ensures { result ≡ parameter_end l.now start end at }
{
    let b = byte_at(l, at);
    if b == b',' {
        return ParameterRead::More {
            start,
            end,
            next: at + 1,
        };
    }
    if b == b')' {
        return ParameterRead::Last {
            start,
            end,
            next: at + 1,
        };
    }
    ParameterRead::Broken
}

// A quoted parameter, whose run ends at the closing quote or at the end of the line.
pub fn quoted_from(l: &[u8], start: usize, end: usize) -> ParameterRead
    ensures { result ≡ quoted_from l.now start end }
{
    if l.len() <= end {
        return ParameterRead::Broken;
    }
    let after = skip(l, end + 1);
    parameter_end(l, start, end, after)
}

// At a position past blanks.
pub fn parameter_from(l: &[u8], at: usize) -> ParameterRead
    requires { at ≤ length l.now }
    ensures { result ≡ parameter_from l.now at }
{
    if byte_at(l, at) == b'"' {
        let start = at + 1;
        let close = run_end(l, start, Class::Quoted);
        return quoted_from(l, start, close);
    }
    let end = run_end(l, at, Class::Unquoted);
    let after = skip(l, end);
    parameter_end(l, at, end, after)
}

pub fn parameter_at(l: &[u8], at: usize) -> ParameterRead
    requires { at ≤ length l.now }
    ensures { result ≡ parameter_at l.now at }
{
    let start = skip(l, at);
    parameter_from(l, start)
}

pub fn call_name_from(l: &[u8], start: usize, end: usize) -> CallRead
    ensures { result ≡ call_name_from l.now start end }
{
    if end == start {
        return CallRead::Broken;
    }
    if byte_at(l, end) == b'(' {
        return CallRead::Name { start, end };
    }
    CallRead::Broken
}

// At a position past blanks.
pub fn call_from(l: &[u8], at: usize) -> CallRead
    ensures { result ≡ call_from l.now at }
{
    if l.len() <= at {
        return CallRead::End;
    }
    let end = run_end(l, at, Class::Call);
    call_name_from(l, at, end)
}

// The name of the next call, or the end of the line.
pub fn call_at(l: &[u8], at: usize) -> CallRead
    requires { at ≤ length l.now }
    ensures { result ≡ call_at l.now at }
{
    let start = skip(l, at);
    call_from(l, start)
}
