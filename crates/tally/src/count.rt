// How many productions, events, calls and parameters a merge would have.
ghost use Rattle.std.specs.Prelude.{◌≡◌, true, ◌+◌, ◌≤◌, ◌<◌, length};
ghost use Rattle.words.specs.Runs.{run};
ghost use Rattle.model.specs.Lists.{all};
ghost use Rattle.model.specs.Counts.{expanded};
ghost use Rattle.tables.specs.Fitting.{event_in_range};
ghost use Rattle.tables.specs.Reading.{production_total, event_entry, production_entry};
ghost use Rattle.tables.specs.Whole.{whole};
ghost use Rattle.tally.specs.Counting.{extent_at, tally_one, tally_merged, tally_passes, TallyBelow};
ghost use Rattle.tables.specs.Layout.{table_length};
ghost use Rattle.tally.specs.Laws.{one_below};

use crate::kept::{Step, take_merged};

// How many there are.
#[derive(Clone, Copy, Default)]
pub struct Tally {
    pub productions: usize,
    pub events: usize,
    // Events after expansion.
    pub expanded: usize,
    pub calls: usize,
    pub parameters: usize,
}

// The places of a production's first event, call and parameter among all of its table, and how many it has.
#[derive(Clone, Copy)]
pub struct Extent {
    pub event: usize,
    pub events: usize,
    pub call: usize,
    pub calls: usize,
    pub parameter: usize,
    pub parameters: usize,
}

pub fn extent_of(l: &[u8], p: usize) -> Extent
    requires { (whole l.now ≡ true) × (p < production_total l.now) }
    ensures { result ≡ extent_at l.now p }
{
    let call = tables::read::calls_from(l, p);
    let calls = tables::read::production_calls(l, p);
    let parameter = tables::read::parameters_from(l, call);
    let end = tables::read::parameters_from(l, call + calls);
    Extent {
        event: tables::read::events_from(l, p),
        events: tables::read::production_events(l, p),
        call,
        calls,
        parameter,
        parameters: end - parameter,
    }
}

// How many events n events, from one on, stand for.
fn expanded_of(l: &[u8], from: usize, n: usize) -> usize
    requires { (table_length ≤ length l.now) × (from + n ≤ 256) × (all event_in_range (run (event_entry l.now) from n) ≡ true) }
    ensures { result ≡ length (expanded (run (event_entry l.now) from n)) }
{
    let mut s: usize = 0;
    for i in 0..n {
        let e = tables::read::event_at(l, from + i);
        s += counts::element_count(e.code, e.count);
    }
    s
}

// One production more.
pub fn tally_one(l: &[u8], p: usize, t: Tally) -> Tally
    requires { (whole l.now ≡ true) × (p < production_total l.now) × TallyBelow 10000 t }
    ensures { result ≡ tally_one t (production_entry l.now p) }
{
    let x = extent_of(l, p);
    let from = x.event;
    let events = x.events;
    Tally {
        productions: t.productions + 1,
        events: t.events + events,
        expanded: t.expanded + expanded_of(l, from, events),
        calls: t.calls + x.calls,
        parameters: t.parameters + x.parameters,
    }
}

// The count of what a merge keeps.
struct Counting;

impl Step for Counting {
    ghost put = { λ second l t p. l };

    ghost Fits = { λ n t. TallyBelow 10000 t };

    fn step(l: &[u8], p: usize, _second: bool, _out: &mut [u8], t: Tally) -> Tally {
        tally_one(l, p, t)
    }

    ghost fewer = { λ n t p. one_below 10000 t p };
}

// The productions of a merge, by the new table's directive.
pub fn tally_merged(old: &[u8], new: &[u8]) -> Tally
    requires { (whole old.now ≡ true) × (whole new.now ≡ true) }
    ensures { result ≡ tally_merged old.now new.now }
{
    take_merged::<Counting>(old, new, &mut [])
}

// Whether a limit in all is passed. The limits of one production hold, since it stands in a whole table.
pub fn tally_passes(t: Tally) -> bool
    ensures { result ≡ tally_passes t }
{
    (64 < t.productions) | (256 < t.expanded) | (128 < t.calls) | (256 < t.parameters)
}
