// Entries written into lent bytes, one a call. proofs/Written says what that does to the entries that the bytes hold.
#![tactic(auto, unfolding(crate::specs::Writing::put_test, crate::specs::Writing::put_detail, crate::specs::Writing::put_joined, crate::specs::Writing::put_keysyms, crate::specs::Writing::put_event, crate::specs::Writing::put_call, crate::specs::Writing::put_parameter, crate::specs::Writing::put_production, crate::specs::Writing::put_texts, crate::specs::Writing::put_counts))]

ghost use Rattle.std.specs.Prelude.{◌≡◌, ◌+◌, ◌*◌, ◌≤◌, ◌<◌, length};
ghost use Rattle.words.specs.Words.{cleared};
ghost use Rattle.tables.specs.Layout.{flag, is_given, value_of, directive_word, table_length};
ghost use Rattle.tables.specs.Writing.{put_test, put_detail, put_joined, put_keysyms, put_event, put_call, put_parameter, put_production, put_texts, put_counts};

use crate::places;
use model::events::{Detail, Directive, KeptEvent, Keysyms};
use model::scan::Span;

// The empty table.
pub fn clear(out: &mut [u8])
    requires { table_length ≤ length out.old }
    ensures { out.new ≡ cleared table_length out.old }
{
    words::clear(out, crate::TABLE_LENGTH);
}

fn flag_word(value: u16, is: bool) -> u16
    ensures { result ≡ flag value is }
{
    if is { value } else { 0 }
}

// ---- Events

fn is_given(d: Detail) -> bool
    ensures { result ≡ is_given d }
{
    matches!(d, Detail::Value(_))
}

fn value_of(d: Detail) -> u32
    ensures { result ≡ value_of d }
{
    match d {
        Detail::Unspecified => 0,
        Detail::Value(v) => v,
    }
}

fn put_test(out: &mut [u8], i: usize, code: u16, count: u16, set: u16, clear: u16)
    requires { (table_length ≤ length out.old) × (i < 256) }
    ensures { out.new ≡ put_test out.old i code count set clear }
{
    words::put_word(out, places::CODES + i, code);
    words::put_word(out, places::COUNTS + i, count);
    words::put_word(out, places::SETS + i, set);
    words::put_word(out, places::CLEARS + i, clear);
}

// A number of 32 bits as two words.
fn put_joined(out: &mut [u8], low: usize, high: usize, n: u32)
    requires { (2 * low + 2 ≤ length out.old) × (2 * high + 2 ≤ length out.old) }
    ensures { out.new ≡ put_joined out.old low high n }
{
    words::put_word(out, low, (n % 65536) as u16);
    words::put_word(out, high, (n / 65536) as u16);
}

fn put_detail(out: &mut [u8], i: usize, flags: u16, value: u32)
    requires { (table_length ≤ length out.old) × (i < 256) }
    ensures { out.new ≡ put_detail out.old i flags value }
{
    words::put_word(out, places::FLAGS + i, flags);
    put_joined(out, places::LOWS + i, places::HIGHS + i, value);
}

fn flags_of(colon: bool, clause: bool, given: bool, bang: bool, names: u8) -> u16
    ensures { result ≡ flag 1 colon + flag 2 clause + flag 4 given + flag 8 bang + 256 * names }
{
    flag_word(1, colon)
        + flag_word(2, clause)
        + flag_word(4, given)
        + flag_word(8, bang)
        + 256 * u16::from(names)
}

fn put_keysyms(out: &mut [u8], i: usize, k: Keysyms)
    requires { (table_length ≤ length out.old) × (i < 256) }
    ensures { out.new ≡ put_keysyms out.old i k }
{
    put_joined(
        out,
        places::FIRST_LOWS + i,
        places::FIRST_HIGHS + i,
        k.first,
    );
    put_joined(
        out,
        places::SECOND_LOWS + i,
        places::SECOND_HIGHS + i,
        k.second,
    );
    put_joined(
        out,
        places::THIRD_LOWS + i,
        places::THIRD_HIGHS + i,
        k.third,
    );
    put_joined(
        out,
        places::FOURTH_LOWS + i,
        places::FOURTH_HIGHS + i,
        k.fourth,
    );
}

pub fn put_event(out: &mut [u8], i: usize, e: KeptEvent)
    requires { (table_length ≤ length out.old) × (i < 256) }
    ensures { out.new ≡ put_event out.old i e }
{
    let flags = flags_of(e.colon, e.clause, is_given(e.detail), e.bang, e.names);
    put_test(
        out,
        i,
        u16::from(e.code),
        u16::from(e.count),
        e.set,
        e.clear,
    );
    put_detail(out, i, flags, value_of(e.detail));
    put_keysyms(out, i, e.keysyms);
}

// ---- Calls and parameters

pub fn put_call(out: &mut [u8], i: usize, second: bool, name: Span, parameters: usize)
    requires { ((table_length ≤ length out.old) × (i < 128)) × ((name.start < 65536) × (name.len < 65536) × (parameters < 65536)) }
    ensures { out.new ≡ put_call out.old i second name parameters }
{
    words::put_word(out, places::MARKS + i, flag_word(1, second));
    words::put_word(out, places::NAME_STARTS + i, name.start as u16);
    words::put_word(out, places::NAME_LENGTHS + i, name.len as u16);
    words::put_word(out, places::CALL_PARAMETERS + i, parameters as u16);
}

pub fn put_parameter(out: &mut [u8], i: usize, s: Span)
    requires { ((table_length ≤ length out.old) × (i < 256)) × ((s.start < 65536) × (s.len < 65536)) }
    ensures { out.new ≡ put_parameter out.old i s }
{
    words::put_word(out, places::PARAMETER_STARTS + i, s.start as u16);
    words::put_word(out, places::PARAMETER_LENGTHS + i, s.len as u16);
}

// ---- Productions

// How many events and calls a production has.
pub fn put_production(out: &mut [u8], p: usize, events: usize, calls: usize)
    requires { ((table_length ≤ length out.old) × (p < 64)) × ((events < 65536) × (calls < 65536)) }
    ensures { out.new ≡ put_production out.old p events calls }
{
    words::put_word(out, places::PRODUCTION_EVENTS + p, events as u16);
    words::put_word(out, places::PRODUCTION_CALLS + p, calls as u16);
}

// ---- The header

// Not `From`, since both types are of other crates.
fn directive_word(d: Directive) -> u16
    ensures { result ≡ directive_word d }
{
    match d {
        Directive::Replace => 0,
        Directive::Override => 1,
        Directive::Augment => 2,
    }
}

pub fn put_texts(out: &mut [u8], directive: Directive, merged: bool, first: usize, second: usize)
    requires { (table_length ≤ length out.old) × ((first < 65536) × (second < 65536)) }
    ensures { out.new ≡ put_texts out.old directive merged first second }
{
    words::put_word(out, places::DIRECTIVE, directive_word(directive));
    words::put_word(out, places::MERGED, flag_word(1, merged));
    words::put_word(out, places::FIRST_LENGTH, first as u16);
    words::put_word(out, places::SECOND_LENGTH, second as u16);
}

pub fn put_counts(
    out: &mut [u8],
    productions: usize,
    events: usize,
    calls: usize,
    parameters: usize,
)
    requires { (table_length ≤ length out.old) × ((productions < 65536) × (events < 65536) × (calls < 65536) × (parameters < 65536)) }
    ensures { out.new ≡ put_counts out.old productions events calls parameters }
{
    words::put_word(out, places::PRODUCTIONS, productions as u16);
    words::put_word(out, places::EVENTS, events as u16);
    words::put_word(out, places::CALLS, calls as u16);
    words::put_word(out, places::PARAMETERS, parameters as u16);
}
