// Which bytes are a whole table. Each part of the check is a crate of its own.
#![tactic(auto)]

ghost use Rattle.std.specs.Prelude.{◌≡◌, ◌&&◌, ◌≤◌, length};
ghost use Rattle.words.specs.Words.{word_at};
ghost use Rattle.tables.specs.Layout.{table_length};
ghost use Rattle.tables.specs.Whole.{whole};
ghost use Rattle.table_check.specs.Checks.{sums_ok, entries_ok};

use tables::places;

// The entries, and that their numbers add up to those of the header.
#[tactic(auto, using(crate::proofs::Stops::entries_events, crate::proofs::Stops::entries_calls, crate::proofs::Stops::entries_parameters, crate::proofs::Stops::entries_last, sequence_check::proofs::Shortcuts::low_counts, sequence_check::proofs::Shortcuts::counts_ge, span_check::proofs::Shortcuts::low_parameters))]
fn entries_ok(l: &[u8]) -> bool
    requires { ((table_length ≤ length l.now) × (word_at l.now 1 ≤ 1)) × ((word_at l.now 4 ≤ 64) × (word_at l.now 5 ≤ 256) × (word_at l.now 6 ≤ 128) × (word_at l.now 7 ≤ 256)) }
    ensures { result ≡ (sums_ok l.now && entries_ok l.now) }
{
    let productions = usize::from(words::word_at(l, places::PRODUCTIONS));
    let events = usize::from(words::word_at(l, places::EVENTS));
    let calls = usize::from(words::word_at(l, places::CALLS));
    let parameters = words::word_at(l, places::PARAMETERS);
    let e = event_check::events_tally(l, events);
    if !e.ok {
        return false;
    }
    let c = span_check::calls_tally(l, calls);
    if !c.ok {
        return false;
    }
    if c.total != parameters {
        return false;
    }
    span_check::spans_ok(l, calls, usize::from(parameters))
        & sequence_check::sequences_ok(l, productions, events, calls, e)
}

// Whether the bytes are a whole table. What stands past its length plays no part.
pub fn whole(l: &[u8]) -> bool
    ensures { result ≡ whole l.now }
{
    if l.len() < tables::TABLE_LENGTH {
        return false;
    }
    if !header_check::header_ok(l) {
        return false;
    }
    let events = usize::from(words::word_at(l, places::EVENTS));
    header_check::unused_ok(l) & keysym_check::slots_ok(l, events) & entries_ok(l)
}
