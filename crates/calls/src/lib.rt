// How many productions, calls and parameters a table has, and where a call's name or a parameter stands, as a part of the
// text. Any bytes may be lent: what is no table is refused.
#![tactic(auto, using(crate::proofs::Asked::asked_laws), unfolding(crate::specs::Refusals::table_refusal, crate::specs::Refusals::lent_refusal, crate::specs::Answers::count_answer, crate::specs::Answers::count_number, crate::specs::Answers::place_answer, crate::specs::Answers::place_number))]

ghost use Rattle.std.specs.Prelude.{◌≡◌, ◌<◌, true, IfSome};
ghost use Rattle.model.specs.Numbers.{counted_number, located_number};
ghost use Rattle.model.specs.Asking.{located, production_count, call_count, parameter_count, located_name, located_parameter};
ghost use Rattle.tables.specs.Reading.{call_total, decode};
ghost use Rattle.tables.specs.Whole.{whole};
ghost use Rattle.calls.specs.Refusals.{table_refusal, lent_refusal};
ghost use Rattle.calls.specs.Places.{place_of};
ghost use Rattle.calls.specs.Answers.{count_number, CountValue, productions_answer, calls_answer, parameters_answer, place_number, PlaceValues, name_answer, parameter_answer};
ghost use Rattle.calls.specs.Parts.{PartWithin, IsPart};

use model::answers::{Counted, Located};
use model::scan::Span;
use tables::read;

// ---- Refusals

// 1 and 12 of a table; 0 where neither is given.
fn table_refusal(table: &[u8]) -> u8
    ensures { result ≡ table_refusal table.now }
{
    if table.len() < tables::TABLE_LENGTH {
        return 1;
    }
    if !table_check::whole(table) {
        return 12;
    }
    0
}

// The same of a table and of its texts: 12 also where a text is shorter than the length that the table keeps.
#[tactic(auto, using(crate::proofs::Asked::asked_laws), unfolding(crate::specs::Refusals::table_refusal, crate::specs::Refusals::lent_refusal, tables::specs::Reading::decode))]
fn lent_refusal(table: &[u8], first: &[u8], second: &[u8]) -> u8
    ensures { result ≡ lent_refusal table.now first.now second.now }
{
    let refusal = table_refusal(table);
    if refusal != 0 {
        return refusal;
    }
    if first.len() < read::first_length(table) || second.len() < read::second_length(table) {
        return 12;
    }
    0
}

// ---- How many

pub fn productions(table: &[u8]) -> Counted
    ensures answer { result ≡ productions_answer table.now }
    ensures number { counted_number result ≡ count_number table.now (production_count (decode table.now)) }
    ensures count { CountValue (production_count (decode table.now)) result }
{
    let refusal = table_refusal(table);
    if refusal != 0 {
        return Counted::Refused(refusal);
    }
    Counted::Accepted(read::production_count(table))
}

pub fn call_count(table: &[u8], production: usize) -> Counted
    ensures answer { result ≡ calls_answer table.now production }
    ensures number { counted_number result ≡ count_number table.now (call_count (decode table.now) production) }
    ensures count { CountValue (call_count (decode table.now) production) result }
{
    let refusal = table_refusal(table);
    if refusal != 0 {
        return Counted::Refused(refusal);
    }
    if read::production_count(table) <= production {
        return Counted::Refused(16);
    }
    Counted::Accepted(read::production_calls(table, production))
}

// The place of a call among all calls of the table: a production's first call stands past the calls of all productions before it.
#[tactic(auto, using(crate::proofs::Asked::asked_laws), unfolding(crate::specs::Places::place_of))]
fn find_call(table: &[u8], production: usize, call: usize) -> Option<usize>
    requires { whole table.now ≡ true }
    ensures place { result ≡ place_of table.now production call }
    ensures among { IfSome result (λ i. i < call_total table.now) }
{
    if read::production_count(table) <= production {
        return None;
    }
    if read::production_calls(table, production) <= call {
        return None;
    }
    Some(read::calls_from(table, production) + call)
}

pub fn parameter_count(table: &[u8], production: usize, call: usize) -> Counted
    ensures answer { result ≡ parameters_answer table.now production call }
    ensures number { counted_number result ≡ count_number table.now (parameter_count (decode table.now) production call) }
    ensures count { CountValue (parameter_count (decode table.now) production call) result }
{
    let refusal = table_refusal(table);
    if refusal != 0 {
        return Counted::Refused(refusal);
    }
    match find_call(table, production, call) {
        None => Counted::Refused(16),
        Some(i) => Counted::Accepted(read::call_parameters(table, i)),
    }
}

// ---- Where

fn in_text(second: bool, s: Span) -> Located
    ensures { result ≡ located second s }
{
    let Span { start, len } = s;
    if second {
        Located::Second { start, len }
    } else {
        Located::First { start, len }
    }
}

// Where the name of a call stands.
pub fn locate_name(
    table: &[u8],
    first: &[u8],
    second: &[u8],
    production: usize,
    call: usize,
) -> Located
    ensures answer { result ≡ name_answer table.now first.now second.now production call }
    ensures number { located_number result ≡ place_number table.now first.now second.now (located_name (decode table.now) production call) }
    ensures values { PlaceValues (located_name (decode table.now) production call) result }
{
    let refusal = lent_refusal(table, first, second);
    if refusal != 0 {
        return Located::Refused(refusal);
    }
    match find_call(table, production, call) {
        None => Located::Refused(16),
        Some(i) => in_text(read::call_mark(table, i), read::call_name(table, i)),
    }
}

// Where a parameter stands, without its quotes.
pub fn locate_parameter(
    table: &[u8],
    first: &[u8],
    second: &[u8],
    production: usize,
    call: usize,
    parameter: usize,
) -> Located
    ensures answer { result ≡ parameter_answer table.now first.now second.now production call parameter }
    ensures number { located_number result ≡ place_number table.now first.now second.now (located_parameter (decode table.now) production call parameter) }
    ensures values { PlaceValues (located_parameter (decode table.now) production call parameter) result }
{
    let refusal = lent_refusal(table, first, second);
    if refusal != 0 {
        return Located::Refused(refusal);
    }
    let Some(i) = find_call(table, production, call) else {
        return Located::Refused(16);
    };
    if read::call_parameters(table, i) <= parameter {
        return Located::Refused(16);
    }
    let k = read::parameters_from(table, i) + parameter;
    in_text(read::call_mark(table, i), read::parameter_span(table, k))
}

// ---- The part itself

// A part of one of two texts; the empty part at the start of the first for a refusal.
#[tactic(auto, unfolding(crate::specs::Parts::part_of))]
fn part<'a>(first: &'a [u8], second: &'a [u8], place: Located) -> &'a [u8]
    requires { PartWithin first.now second.now place }
    ensures { IsPart first.entry second.entry result place }
{
    match place {
        Located::First { start, len } => &first[start..start + len],
        Located::Second { start, len } => &second[start..start + len],
        Located::Refused(_) => &first[..0],
    }
}

// The name of a call. `locate_name` gives the number.
#[tactic(auto, using(crate::proofs::Located::name_answer_within))]
pub fn name<'a>(
    table: &[u8],
    first: &'a [u8],
    second: &'a [u8],
    production: usize,
    call: usize,
) -> &'a [u8]
    ensures { IsPart first.entry second.entry result (name_answer table.now first.now second.now production call) }
{
    part(
        first,
        second,
        locate_name(table, first, second, production, call),
    )
}

// A parameter without its quotes. `locate_parameter` gives the number.
#[tactic(auto, using(crate::proofs::Located::parameter_answer_within))]
pub fn parameter<'a>(
    table: &[u8],
    first: &'a [u8],
    second: &'a [u8],
    production: usize,
    call: usize,
    parameter: usize,
) -> &'a [u8]
    ensures { IsPart first.entry second.entry result (parameter_answer table.now first.now second.now production call parameter) }
{
    part(
        first,
        second,
        locate_parameter(table, first, second, production, call, parameter),
    )
}
