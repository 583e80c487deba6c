// The right side of a line, in one walk: each call is read and written into the table with its parameters, as far as there is room.
ghost use Rattle.std.specs.Prelude.{◌≡◌, map, false, ◌+◌, ◌≤◌, ◌<◌, length};
ghost use Rattle.model.specs.Calls.{span, parameters_from, parameters_at, call_at, right_side};
ghost use Rattle.model.specs.Compiling.{in_text};
ghost use Rattle.call_scanner.specs.RightSide.{parameters_counted, call_spans, right_of};
ghost use Rattle.tables.specs.Writing.{put_parameter, put_call};
ghost use Rattle.line_writer.specs.Puts.{put_parameters};
ghost use Rattle.line_writer.specs.Reads.{ParametersFit, spans_in, CallPut, CallsPut};
ghost use Rattle.tables.specs.Layout.{table_length};

use call_scanner::calls::{call_at, parameter_at};
use call_scanner::right::{
    CallSpans, ParametersOpen, ParametersRead, RightRead, larger, open_parameters,
};
use model::scan::{CallRead, ParameterRead, Span};
use tables::write::{put_call, put_parameter};

// A part of a line that begins at `base`, as a part of its text.
fn in_text(start: usize, end: usize, base: usize) -> Span
    requires { (start ≤ end) × (base + end ≤ 8192) }
    ensures { result ≡ in_text base (span start end) }
{
    Span {
        start: base + start,
        len: end - start,
    }
}

// Parameter k, where the table has room for it.
fn write_parameter(start: usize, end: usize, base: usize, out: &mut [u8], k: usize)
    requires { ((start ≤ end) × (base + end ≤ 8192)) × (table_length ≤ length out.old) }
    ensures { k < 256 → out.new ≡ put_parameter out.old k (in_text base (span start end)) }
{
    if k < 256 {
        let s = in_text(start, end, base);
        put_parameter(out, k, s);
    }
}

// The parameters of a call, from the first of them on.
pub fn write_parameters(
    l: &[u8],
    at: usize,
    base: usize,
    out: &mut [u8],
    first: usize,
) -> ParametersRead
    requires { ((at ≤ length l.now) × (base + length l.now ≤ 8192)) × ((table_length ≤ length out.old) × (first ≤ 16384)) }
    ensures { (result ≡ parameters_counted (parameters_from (length l.now + 1) l.now at))
        × (ParametersFit (parameters_from (length l.now + 1) l.now at) first →
        out.new ≡ put_parameters out.old first (map (in_text base) (spans_in (parameters_from (length l.now + 1) l.now at)))) }
{
    let mut i = at;
    let mut count: usize = 0;
    loop {
        match parameter_at(l, i) {
            ParameterRead::Broken => return ParametersRead::Broken,
            ParameterRead::More { start, end, next } => {
                write_parameter(start, end, base, out, first + count);
                count += 1;
                i = next;
            }
            ParameterRead::Last { start, end, next } => {
                write_parameter(start, end, base, out, first + count);
                return ParametersRead::Parameters {
                    count: count + 1,
                    next,
                };
            }
        }
    }
}

// After the opening bracket.
pub fn write_bracket(
    l: &[u8],
    at: usize,
    base: usize,
    out: &mut [u8],
    first: usize,
) -> ParametersRead
    requires { ((at ≤ length l.now) × (base + length l.now ≤ 8192)) × ((table_length ≤ length out.old) × (first ≤ 16384)) }
    ensures { (result ≡ parameters_counted (parameters_at l.now at))
        × (ParametersFit (parameters_at l.now at) first →
        out.new ≡ put_parameters out.old first (map (in_text base) (spans_in (parameters_at l.now at)))) }
{
    match open_parameters(l, at) {
        ParametersOpen::Empty(next) => ParametersRead::Parameters { count: 0, next },
        ParametersOpen::First(start) => write_parameters(l, start, base, out, first),
    }
}

// Call n, with how many parameters it has, where the table has room for it.
fn write_name(start: usize, end: usize, count: usize, base: usize, out: &mut [u8], n: usize)
    requires { ((start ≤ end) × (base + end ≤ 8192) × (count ≤ 8192)) × (table_length ≤ length out.old) }
    ensures { n < 128 → out.new ≡ put_call out.old n false (in_text base (span start end)) count }
{
    if n < 128 {
        let s = in_text(start, end, base);
        put_call(out, n, false, s, count);
    }
}

// The next call, as call n, with its parameters from p on.
pub fn write_call(l: &[u8], at: usize, base: usize, out: &mut [u8], n: usize, p: usize) -> CallSpans
    requires { ((at ≤ length l.now) × (base + length l.now ≤ 8192)) × ((table_length ≤ length out.old) × (p ≤ 16384)) }
    ensures { (result ≡ call_spans l.now (call_at l.now at)) × CallPut l.now base n p out.old out.new result }
{
    match call_at(l, at) {
        CallRead::Broken => CallSpans::Broken,
        CallRead::End => CallSpans::End,
        CallRead::Name { start, end } => match write_bracket(l, end + 1, base, out, p) {
            ParametersRead::Broken => CallSpans::Broken,
            ParametersRead::Parameters { count, next } => {
                write_name(start, end, count, base, out, n);
                CallSpans::Call {
                    start,
                    end,
                    count,
                    next,
                }
            }
        },
    }
}

// The calls of a line from a position on: calls from n on, with their parameters from p on.
pub fn write_right(
    l: &[u8],
    at: usize,
    base: usize,
    out: &mut [u8],
    n: usize,
    p: usize,
) -> RightRead
    requires { ((at ≤ length l.now) × (base + length l.now ≤ 8192)) × ((table_length ≤ length out.old) × (n ≤ 128) × (p ≤ 256)) }
    ensures { (result ≡ right_of (right_side l.now at)) × CallsPut l.now base at n p out.old out.new }
{
    let mut i = at;
    let mut calls: usize = 0;
    let mut parameters: usize = 0;
    let mut most: usize = 0;
    loop {
        match write_call(l, i, base, out, n + calls, p + parameters) {
            CallSpans::Broken => return RightRead::Broken,
            CallSpans::End => {
                return RightRead::Right {
                    calls,
                    parameters,
                    most,
                };
            }
            CallSpans::Call {
                start: _,
                end: _,
                count,
                next,
            } => {
                calls += 1;
                parameters += count;
                most = larger(most, count);
                i = next;
            }
        }
    }
}
