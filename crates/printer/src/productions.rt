// Productions as they are written, one a line.
ghost use Rattle.std.specs.Prelude.{◌≡◌, true, ◌+◌, ◌≤◌, ◌<◌};
ghost use Rattle.words.specs.Runs.{run};
ghost use Rattle.model.specs.Lists.{bytes};
ghost use Rattle.model.specs.Canonical.{joined_by, each, event_text, production_text, productions_text};
ghost use Rattle.tables.specs.Whole.{whole};
ghost use Rattle.tables.specs.Reading.{event_total, event_entry, production_total, production_entry};
ghost use Rattle.writing.specs.Overlay.{Put};

use call_text::{Lent, put_calls};
use event_text::put_event;
use tables::read;
use writing::bytes;

// n events, from event `from` on.
fn put_events(out: &mut [u8], at: usize, l: &[u8], from: usize, n: usize) -> usize
    requires { (at ≤ 5000000000) × (whole l.now ≡ true) × (from + n ≤ event_total l.now) }
    ensures { (Put out.old out.new at result (joined_by (bytes ",") (each event_text (run (event_entry l.now) from n)))) × (result ≤ at + 5200000) }
{
    bytes::put_joined(out, at, n, b',', |out, at, k| {
        put_event(out, at, read::event_at(l, from + k))
    })
}

fn put_production(out: &mut [u8], at: usize, lent: &Lent, p: usize) -> usize
    requires { (at ≤ 4000000000) × (p < production_total lent.now.table.now) }
    ensures { (Put out.old out.new at result (production_text lent.now.first.now lent.now.second.now (production_entry lent.now.table.now p))) × (result ≤ at + 5900000) }
{
    let l = lent.table;
    let events = read::production_events(l, p);
    let calls = read::production_calls(l, p);
    let mut next = put_events(out, at, l, read::events_from(l, p), events);
    next = bytes::put_byte(out, next, b':');
    next = put_calls(out, next, lent, read::calls_from(l, p), calls);
    bytes::put_byte(out, next, b'\n')
}

// All productions, from the start of the output on. Each ends its line, so that nothing stands between two.
pub fn put_productions(out: &mut [u8], lent: &Lent) -> usize
    ensures { (Put out.old out.new 0 result (productions_text lent.now.first.now lent.now.second.now (run (production_entry lent.now.table.now) 0 (production_total lent.now.table.now)))) × (result ≤ 377600000) }
{
    let mut next = 0;
    for p in 0..read::production_count(lent.table) {
        next = put_production(out, next, lent, p);
    }
    next
}
