// Calls as they are written, their names and parameters copied from the text that each came from.
#![tactic(auto, using(table_check::proofs::WholeFacts::facts_of_whole))]

ghost use Rattle.std.specs.Prelude.{◌≡◌, true, cond, ◌++◌, ◌+◌, ◌≤◌, ◌<◌, length, take, drop};
ghost use Rattle.words.specs.Runs.{run};
ghost use Rattle.model.specs.Lists.{bytes};
ghost use Rattle.model.specs.Canonical.{joined_by, each, parameter_text, call_text};
ghost use Rattle.tables.specs.Reading.{first_length_in, second_length_in, call_total, call_entry, mark_entry, parameter_entry, first_parameter, call_parameters};
ghost use Rattle.tables.specs.Whole.{whole};
ghost use Rattle.writing.specs.Overlay.{Put};

use model::scan::Span;
use tables::read;
use writing::bytes;

// A whole table with its texts, each at least as long as the length that the table keeps.
#[derive(Clone, Copy)]
pub struct Lent<'a> {
    pub table: &'a [u8],
    pub first: &'a [u8],
    pub second: &'a [u8],
    pub ghost is_whole: { whole table.now ≡ true },
    pub ghost first_long: { first_length_in table.now ≤ length first.now },
    pub ghost second_long: { second_length_in table.now ≤ length second.now },
}

impl<'a> Lent<'a> {
    // The text that a call's mark names: the second where it is set, the first otherwise.
    fn text(&self, mark: bool) -> &'a [u8]
        ensures { result.now ≡ cond mark self.now.second.now self.now.first.now }
    {
        if mark { self.second } else { self.first }
    }
}

// Parameters are always quoted.
fn put_parameter(out: &mut [u8], at: usize, text: &[u8], s: Span) -> usize
    requires { (at ≤ 8000000000) × (s.start + s.len ≤ length text.now) × (s.len ≤ 8192) }
    ensures { (Put out.old out.new at result (bytes "\"" ++ (take s.len (drop s.start text.now) ++ bytes "\""))) × (result ≤ at + 8194) }
{
    let mut next = bytes::put_byte(out, at, b'"');
    next = bytes::put_part(out, next, text, s.start, s.len);
    bytes::put_byte(out, next, b'"')
}

// The parameters of call i.
fn put_parameters(out: &mut [u8], at: usize, lent: &Lent, i: usize) -> usize
    requires { (at ≤ 7000000000) × (i < call_total lent.now.table.now) }
    ensures { (Put out.old out.new at result (joined_by (bytes ",") (each (parameter_text lent.now.first.now lent.now.second.now (mark_entry lent.now.table.now i)) (run (parameter_entry lent.now.table.now) (first_parameter lent.now.table.now i) (call_parameters lent.now.table.now i))))) × (result ≤ at + 65560) }
{
    let text = lent.text(read::call_mark(lent.table, i));
    let from = read::parameters_from(lent.table, i);
    let n = read::call_parameters(lent.table, i);
    bytes::put_joined(out, at, n, b',', |out, at, k| {
        put_parameter(out, at, text, read::parameter_span(lent.table, from + k))
    })
}

fn put_call(out: &mut [u8], at: usize, lent: &Lent, i: usize) -> usize
    requires { (at ≤ 6000000000) × (i < call_total lent.now.table.now) }
    ensures { (Put out.old out.new at result (call_text lent.now.first.now lent.now.second.now (call_entry lent.now.table.now i))) × (result ≤ at + 74000) }
{
    let text = lent.text(read::call_mark(lent.table, i));
    let name = read::call_name(lent.table, i);
    let mut next = bytes::put_part(out, at, text, name.start, name.len);
    next = bytes::put_byte(out, next, b'(');
    next = put_parameters(out, next, lent, i);
    bytes::put_byte(out, next, b')')
}

// n calls, from call `from` on.
pub fn put_calls(out: &mut [u8], at: usize, lent: &Lent, from: usize, n: usize) -> usize
    requires { (at ≤ 5000000000) × (from + n ≤ call_total lent.now.table.now) × (n ≤ 8) }
    ensures { (Put out.old out.new at result (joined_by (bytes " ") (each (call_text lent.now.first.now lent.now.second.now) (run (call_entry lent.now.table.now) from n)))) × (result ≤ at + 600000) }
{
    bytes::put_joined(out, at, n, b' ', |out, at, k| {
        put_call(out, at, lent, from + k)
    })
}
