// Productions copied from a table, after those that stand in the output.
ghost use Rattle.std.specs.Prelude.{◌≡◌, true, ◌+◌, ◌≤◌, length};
ghost use Rattle.words.specs.Runs.{run};
ghost use Rattle.tables.specs.Reading.{call_total, parameter_total, event_entry, call_entry, parameter_entry, directive_in};
ghost use Rattle.tables.specs.Writing.{put_event, put_parameter};
ghost use Rattle.tables.specs.Whole.{whole};
ghost use Rattle.tally.specs.Counting.{tally_merged, TallyRoom};
ghost use Rattle.tally.specs.Laws.{one_room};
ghost use Rattle.copying.specs.Copying.{puts, put_call_in, put_one, put_by, put_merged};
ghost use Rattle.tables.specs.Layout.{table_length};

use model::events::Directive;
use tally::count::{Tally, extent_of, tally_one};
use tally::kept::{Step, take_kept};

// The entries of a production, each kind by a `for` of its own: a loop for all three would be given the body as a closure, and
// `each(n, |i| ..)` says no more than `for i in 0..n { .. }`.
fn copy_events(l: &[u8], from: usize, n: usize, out: &mut [u8], at: usize)
    requires { ((table_length ≤ length l.now) × (from + n ≤ 256)) × ((table_length ≤ length out.old) × (at + n ≤ 256)) }
    ensures { out.new ≡ puts put_event out.old at (run (event_entry l.now) from n) }
{
    for i in 0..n {
        let e = tables::read::event_at(l, from + i);
        tables::write::put_event(out, at + i, e);
    }
}

fn copy_calls(l: &[u8], from: usize, n: usize, second: bool, out: &mut [u8], at: usize)
    requires { ((whole l.now ≡ true) × (from + n ≤ call_total l.now)) × ((table_length ≤ length out.old) × (at + n ≤ 128)) }
    ensures { out.new ≡ puts (put_call_in second) out.old at (run (call_entry l.now) from n) }
{
    for i in 0..n {
        let name = tables::read::call_name(l, from + i);
        let parameters = tables::read::call_parameters(l, from + i);
        tables::write::put_call(out, at + i, second, name, parameters);
    }
}

fn copy_parameters(l: &[u8], from: usize, n: usize, out: &mut [u8], at: usize)
    requires { ((whole l.now ≡ true) × (from + n ≤ parameter_total l.now)) × ((table_length ≤ length out.old) × (at + n ≤ 256)) }
    ensures { out.new ≡ puts put_parameter out.old at (run (parameter_entry l.now) from n) }
{
    for i in 0..n {
        let s = tables::read::parameter_span(l, from + i);
        tables::write::put_parameter(out, at + i, s);
    }
}

// The copy of what a merge keeps.
struct Copying;

impl Step for Copying {
    ghost put = { put_one };

    ghost Fits = { λ n t. (table_length ≤ n) × TallyRoom t };

    fn step(l: &[u8], p: usize, second: bool, out: &mut [u8], t: Tally) -> Tally {
        let x = extent_of(l, p);
        let next = tally_one(l, p, t);
        copy_events(l, x.event, x.events, out, t.events);
        copy_calls(l, x.call, x.calls, second, out, t.calls);
        copy_parameters(l, x.parameter, x.parameters, out, t.parameters);
        tables::write::put_production(out, t.productions, x.events, x.calls);
        next
    }

    ghost fewer = { λ n t p f. (f.0, one_room t p f.1) };
}

// The productions of a merge, by the new table's directive. tally::kept::take_merged has the same order for any step; it is told here
// once more, so that a copy in another order is a wrong program of this crate.
fn copy_merged(old: &[u8], new: &[u8], out: &mut [u8]) -> Tally
    requires { ((whole old.now ≡ true) × (whole new.now ≡ true)) × ((table_length ≤ length out.old) × TallyRoom (tally_merged old.now new.now)) }
    ensures { (result ≡ tally_merged old.now new.now) × (out.new ≡ put_by (directive_in new.now) old.now new.now out.old) }
{
    let none = Tally::default();
    match tables::read::directive(new) {
        Directive::Replace => take_kept::<Copying>(new, old, 0, true, out, none),
        Directive::Override => {
            let t = take_kept::<Copying>(new, old, 0, true, out, none);
            let n = tables::read::production_count(new);
            take_kept::<Copying>(old, new, n, false, out, t)
        }
        Directive::Augment => {
            let t = take_kept::<Copying>(old, new, 0, false, out, none);
            let n = tables::read::production_count(old);
            take_kept::<Copying>(new, old, n, true, out, t)
        }
    }
}

// The whole merge, into a cleared table.
pub fn put_merged(old: &[u8], new: &[u8], out: &mut [u8])
    requires { ((whole old.now ≡ true) × (whole new.now ≡ true)) × ((table_length ≤ length out.old) × TallyRoom (tally_merged old.now new.now)) }
    ensures { out.new ≡ put_merged old.now new.now out.old }
{
    let first = tables::read::first_length(old);
    let second = tables::read::first_length(new);
    let t = copy_merged(old, new, out);
    tables::write::put_texts(out, Directive::Replace, true, first, second);
    tables::write::put_counts(out, t.productions, t.events, t.calls, t.parameters);
}
