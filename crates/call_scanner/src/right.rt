// The right side of a production: its calls.
ghost use Rattle.std.specs.Prelude.{◌≡◌, ◌+◌, ◌≤◌, max, length};
ghost use Rattle.model.specs.Calls.{call_at, parameters_from, parameters_at, right_side};
ghost use Rattle.call_scanner.specs.RightSide.{open_at, parameters_counted, call_spans, right_of};

use crate::calls::{call_at, parameter_at};
use model::scan::{CallRead, ParameterRead};
use scanner::bytes::{byte_at, skip};

// The parameters after an opening bracket: none, or where the first begins.
#[derive(Clone, Copy)]
pub enum ParametersOpen {
    Empty(usize),
    First(usize),
}

pub fn open_parameters(l: &[u8], at: usize) -> ParametersOpen
    requires { at ≤ length l.now }
    ensures { result ≡ open_at l.now at }
{
    let start = skip(l, at);
    if byte_at(l, start) == b')' {
        return ParametersOpen::Empty(start + 1);
    }
    ParametersOpen::First(start)
}

// How many parameters a call has, and where reading goes on past its closing bracket.
#[derive(Clone, Copy)]
pub enum ParametersRead {
    Broken,
    Parameters { count: usize, next: usize },
}

// From the first of them on.
pub fn count_parameters(l: &[u8], at: usize) -> ParametersRead
    requires { at ≤ length l.now }
    ensures { result ≡ parameters_counted (parameters_from (length l.now + 1) l.now at) }
{
    let mut i = at;
    let mut count: usize = 0;
    loop {
        match parameter_at(l, i) {
            ParameterRead::Broken => return ParametersRead::Broken,
            ParameterRead::More {
                start: _,
                end: _,
                next,
            } => {
                count += 1;
                i = next;
            }
            ParameterRead::Last {
                start: _,
                end: _,
                next,
            } => {
                return ParametersRead::Parameters {
                    count: count + 1,
                    next,
                };
            }
        }
    }
}

// After the opening bracket.
pub fn read_parameters(l: &[u8], at: usize) -> ParametersRead
    requires { at ≤ length l.now }
    ensures { result ≡ parameters_counted (parameters_at l.now at) }
{
    match open_parameters(l, at) {
        ParametersOpen::Empty(next) => ParametersRead::Parameters { count: 0, next },
        ParametersOpen::First(first) => count_parameters(l, first),
    }
}

// The next call: where its name stands, how many parameters it has, and where the call after it may begin.
#[derive(Clone, Copy)]
pub enum CallSpans {
    Broken,
    End,
    Call {
        start: usize,
        end: usize,
        count: usize,
        next: usize,
    },
}

pub fn read_call(l: &[u8], at: usize) -> CallSpans
    requires { at ≤ length l.now }
    ensures { result ≡ call_spans l.now (call_at l.now at) }
{
    match call_at(l, at) {
        CallRead::Broken => CallSpans::Broken,
        CallRead::End => CallSpans::End,
        CallRead::Name { start, end } => match read_parameters(l, end + 1) {
            ParametersRead::Broken => CallSpans::Broken,
            ParametersRead::Parameters { count, next } => CallSpans::Call {
                start,
                end,
                count,
                next,
            },
        },
    }
}

pub fn larger(a: usize, b: usize) -> usize
    ensures { result ≡ max a b }
{
    if a < b {
        return b;
    }
    a
}

// The calls of a line: how many, how many parameters they have in all, and the most that one of them has.
#[derive(Clone, Copy)]
pub enum RightRead {
    Broken,
    Right {
        calls: usize,
        parameters: usize,
        most: usize,
    },
}

pub fn right_side(l: &[u8], at: usize) -> RightRead
    requires { at ≤ length l.now }
    ensures { result ≡ right_of (right_side l.now at) }
{
    let mut i = at;
    let mut calls: usize = 0;
    let mut parameters: usize = 0;
    let mut most: usize = 0;
    loop {
        match read_call(l, i) {
            CallSpans::Broken => return RightRead::Broken,
            CallSpans::End => {
                return RightRead::Right {
                    calls,
                    parameters,
                    most,
                };
            }
            CallSpans::Call {
                start: _,
                end: _,
                count,
                next,
            } => {
                calls += 1;
                parameters += count;
                most = larger(most, count);
                i = next;
            }
        }
    }
}
