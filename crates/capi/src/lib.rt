// The library for C: each function takes numbers and byte slices, a slice being a pointer and a length. Any bytes may be
// lent. include/glykorant.h declares them.
#![tactic(auto)]

mod answers;
mod state;

ghost use Rattle.std.specs.Prelude.{◌≡◌};
ghost use Rattle.tables.specs.Layout.{table_length};
ghost use Rattle.keyboard.specs.Maps.{lent_setting};
ghost use Rattle.compiler.specs.Compile.{compile_answer, compiled_bytes};
ghost use Rattle.merger.specs.Merge.{merge_answer, merged_bytes};
ghost use Rattle.printer.specs.Write.{written, written_bytes};
ghost use Rattle.calls.specs.Answers.{productions_answer, calls_answer, parameters_answer, name_answer, parameter_answer};
ghost use Rattle.capi.specs.State.{state_length};
ghost use Rattle.capi.specs.Match.{fresh_number, fresh_bytes, matched_word, matched_on, state_left};
ghost use Rattle.capi.specs.Answers.{compiled_word, merged_word, written_word, counted_word, located_word};

// ---- Lengths

// How many bytes a table has.
#[unsafe(no_mangle)]
pub extern "C" fn tt_table_length() -> usize
    ensures { result ≡ table_length }
{
    tables::TABLE_LENGTH
}

// How many bytes a state has.
#[unsafe(no_mangle)]
pub extern "C" fn tt_state_length() -> usize
    ensures { result ≡ state_length }
{
    state::STATE_LENGTH
}

// ---- Tables

// The number, and the place above it.
#[unsafe(no_mangle)]
pub extern "C" fn tt_compile(text: &[u8], table: &mut [u8]) -> u64
    ensures value { result ≡ compiled_word (compile_answer text.now table.old) }
    ensures table_after { table.new ≡ compiled_bytes text.now table.old }
{
    answers::compiled_word(compiler::compile(text, table))
}

// The number.
#[unsafe(no_mangle)]
pub extern "C" fn tt_merge(old: &[u8], new: &[u8], out: &mut [u8]) -> u64
    ensures value { result ≡ merged_word (merge_answer old.now new.now out.old) }
    ensures out_after { out.new ≡ merged_bytes old.now new.now out.old }
{
    answers::merged_word(merger::merge(old, new, out))
}

// The number, and the length of the text above it.
#[unsafe(no_mangle)]
pub extern "C" fn tt_write(table: &[u8], first: &[u8], second: &[u8], out: &mut [u8]) -> u64
    ensures value { result ≡ written_word (written table.now first.now second.now out.old) }
    ensures out_after { out.new ≡ written_bytes table.now first.now second.now out.old }
{
    answers::written_word(printer::write(table, first, second, out))
}

// ---- What a table has

// The number, and the count above it.
#[unsafe(no_mangle)]
pub extern "C" fn tt_productions(table: &[u8]) -> u64
    ensures { result ≡ counted_word (productions_answer table.now) }
{
    answers::counted_word(calls::productions(table))
}

// The same of the calls of a production.
#[unsafe(no_mangle)]
pub extern "C" fn tt_calls(table: &[u8], production: usize) -> u64
    ensures { result ≡ counted_word (calls_answer table.now production) }
{
    answers::counted_word(calls::call_count(table, production))
}

// The same of the parameters of a call.
#[unsafe(no_mangle)]
pub extern "C" fn tt_parameters(table: &[u8], production: usize, call: usize) -> u64
    ensures { result ≡ counted_word (parameters_answer table.now production call) }
{
    answers::counted_word(calls::parameter_count(table, production, call))
}

// The number, the mark of the text, and where the name of a call stands in it.
#[unsafe(no_mangle)]
pub extern "C" fn tt_name(
    table: &[u8],
    first: &[u8],
    second: &[u8],
    production: usize,
    call: usize,
) -> u64
    ensures { result ≡ located_word (name_answer table.now first.now second.now production call) }
{
    answers::located_word(calls::locate_name(table, first, second, production, call))
}

// The same of a parameter, without its quotes.
#[unsafe(no_mangle)]
pub extern "C" fn tt_parameter(
    table: &[u8],
    first: &[u8],
    second: &[u8],
    production: usize,
    call: usize,
    parameter: usize,
) -> u64
    ensures { result ≡ located_word (parameter_answer table.now first.now second.now production call parameter) }
{
    answers::located_word(calls::locate_parameter(
        table, first, second, production, call, parameter,
    ))
}

// ---- Matching

// Leaves a fresh state, which holds no events: the number.
#[unsafe(no_mangle)]
pub extern "C" fn tt_fresh(state: &mut [u8]) -> u64
    ensures value { result ≡ fresh_number state.old }
    ensures state_after { state.new ≡ fresh_bytes state.old }
{
    if state.len() < state::STATE_LENGTH {
        return 1;
    }
    words::clear(state, state::STATE_LENGTH);
    0
}

// The number, and the selection above it. The state is loaded, and stored again only where the event is heard.
#[unsafe(no_mangle)]
pub extern "C" fn tt_match(
    table: &[u8],
    maps: &[u8],
    time: u32,
    state: &mut [u8],
    record: &[u8],
    order: u8,
) -> u64
    ensures value { result ≡ matched_word (matched_on table.now (lent_setting maps.now time) state.old «record».now order) }
    ensures state_after { state.new ≡ state_left table.now (lent_setting maps.now time) state.old «record».now order }
{
    if state.len() < state::STATE_LENGTH {
        return 1;
    }
    let answer = matcher::match_event(table, maps, time, state::load_state(state), record, order);
    let matched = answer.matched;
    let next = answer.state;
    state::keep(state, matched, next);
    answers::matched_word(matched)
}
