// The productions of a table: how many events and calls each has, and how many events these stand for. The loops have no early
// exit and go in numbers of 16 bits, so that they are compiled to vector instructions that take eight words at a time.
#![tactic(auto)]

ghost use Rattle.std.specs.Prelude.{◌≡◌, true, false, MatchOption, leb, ◌+◌, ◌-◌, ◌*◌, ◌≤◌, ◌<◌, length};
ghost use Rattle.words.specs.Words.{word_at};
ghost use Rattle.words.specs.Runs.{every, total, low_at};
ghost use Rattle.counts.specs.Elements.{element_count};
ghost use Rattle.tables.specs.Layout.{production_events_at, production_calls_at, counts_at, table_length};
ghost use Rattle.event_check.specs.Events.{event_ok, few_at};
ghost use Rattle.sequence_check.specs.Sequences.{size_at, production_ok, plain_ok, least_events, most_events, sequences_ok};

use event_check::EventTally;
use tables::places;

// ---- Production by production

// How many events an event in range stands for: in numbers of 16 bits, which counts::element_count is not.
#[tactic(auto, using(crate::proofs::SizeLaws::size_twice, crate::proofs::SizeLaws::size_less))]
fn size_of(code: u16, count: u16) -> u16
    requires { (1 ≤ count) × (count ≤ 9) }
    ensures { result ≡ element_count code count }
{
    if (1 < count) & ((code == 3) | (code == 5)) {
        2 * count
    } else {
        2 * count - 1
    }
}

// How many events n events, from one on and all in range, stand for.
#[tactic(auto, using(crate::proofs::Shortcuts::count_low_from, crate::proofs::Shortcuts::count_high_from, counts::proofs::Elements::count_at_most, words::proofs::RunLaws::total_more), unfolding(words::specs::Runs::total, crate::specs::Sequences::size_at))]
fn sizes(l: &[u8], from: usize, n: usize) -> u16
    requires { (table_length ≤ length l.now) × (from + n ≤ 256) × (every (event_ok l.now) from n ≡ true) }
    ensures { result ≡ total (size_at l.now) from n }
{
    let mut s: u16 = 0;
    for i in 0..n {
        let at = from + i;
        s += size_of(
            words::word_at(l, places::CODES + at),
            words::word_at(l, places::COUNTS + at),
        );
    }
    s
}

#[tactic(auto, using(words::proofs::RunLaws::total_part, words::proofs::RunLaws::every_next, words::proofs::RunLaws::total_more), unfolding(words::specs::Runs::every, words::specs::Runs::total, crate::specs::Sequences::production_ok))]
fn productions_ok(l: &[u8], n: usize) -> bool
    requires { (table_length ≤ length l.now) × (n ≤ 64) × (total (word_at l.now) production_events_at n ≤ 256) × (every (event_ok l.now) 0 (total (word_at l.now) production_events_at n) ≡ true) }
    ensures { result ≡ every (production_ok l.now) 0 n }
{
    let mut ok = true;
    let mut from: usize = 0;
    for p in 0..n {
        let events = usize::from(words::word_at(l, places::PRODUCTION_EVENTS + p));
        ok &= (1 <= events)
            & (words::word_at(l, places::PRODUCTION_CALLS + p) <= 8)
            & (sizes(l, from, events) <= 24);
        from += events;
    }
    ok
}

// The productions, event by event.
#[tactic(auto, unfolding(crate::specs::Sequences::sequences_ok))]
fn exact_ok(l: &[u8], n: usize, events: usize, calls: usize) -> bool
    requires { ((table_length ≤ length l.now) × (n ≤ 64)) × ((events ≤ 256) × (calls ≤ 128) × (every (event_ok l.now) 0 events ≡ true)) }
    ensures { result ≡ sequences_ok l.now n events calls }
{
    words::sum(l, places::PRODUCTION_EVENTS, n) == events as u32
        && words::sum(l, places::PRODUCTION_CALLS, n) == calls as u32
        && productions_ok(l, n)
        && sizes(l, 0, events) <= 256
}

// ---- By the counts alone

// How many events and calls all productions have.
#[derive(Clone, Copy)]
pub struct Sums {
    pub events: u16,
    pub calls: u16,
}

// What the loop over productions finds where each has 1 to `most` events and at most 8 calls. How far each number is past its
// bounds is joined and tested once.
#[tactic(auto, using(crate::proofs::Joined::joined_production, words::proofs::RunLaws::every_next, words::proofs::RunLaws::total_more), unfolding(words::specs::Runs::every, words::specs::Runs::total, words::specs::Runs::low_at, crate::specs::Sequences::plain_ok))]
fn productions_tally(l: &[u8], n: usize, most: u16) -> Option<Sums>
    requires { (table_length ≤ length l.now) × (n ≤ 64) }
    ensures { MatchOption result (every (plain_ok l.now most) 0 n ≡ false) (λ s. (every (plain_ok l.now most) 0 n ≡ true) × (s.events ≡ total (low_at l.now) production_events_at n) × (s.calls ≡ total (low_at l.now) production_calls_at n)) }
{
    let mut faults: u16 = 0;
    let mut events: u16 = 0;
    let mut calls: u16 = 0;
    for p in 0..n {
        let own = words::word_at(l, places::PRODUCTION_EVENTS + p);
        let made = words::word_at(l, places::PRODUCTION_CALLS + p);
        faults |= 1u16.saturating_sub(own) | own.saturating_sub(most) | made.saturating_sub(8);
        events += own % 256;
        calls += made % 256;
    }
    (faults == 0).then_some(Sums { events, calls })
}

#[tactic(auto, unfolding(crate::specs::Sequences::least_events))]
fn least_events(few: bool) -> u16
    ensures { result ≡ least_events few }
{
    if few { 4 } else { 1 }
}

#[tactic(auto, unfolding(crate::specs::Sequences::most_events))]
fn most_events(extra: usize, least: u16) -> u16
    requires { least ≤ 24 }
    ensures { result ≡ most_events extra least }
{
    least.max(24usize.saturating_sub(extra) as u16)
}

// Whether the events of the table stand for no more than they may, where they stand for at most `extra` more than they are.
#[tactic(auto, using(crate::proofs::Shortcuts::sizes_table))]
fn sizes_ok(l: &[u8], events: usize, extra: usize) -> bool
    requires { ((table_length ≤ length l.now) × (events ≤ 256)) × ((every (event_ok l.now) 0 events ≡ true) × (extra ≡ 3 * (total (word_at l.now) counts_at events - events)) × (extra < 200000)) }
    ensures { result ≡ leb (total (size_at l.now) 0 events) 256 }
{
    events + extra <= 256 || sizes(l, 0, events) <= 256
}

// The productions and how many events they stand for. An event of count c stands for at most 3 (c - 1) events more than one,
// so the counts tell what all events together may stand for beyond their number; and an event of a count of at most 3 stands
// for at most 6, so that a production of four such events is within its limit whatever the others are. Mostly no production
// can pass its limit by that.
#[tactic(auto, using(crate::proofs::Shortcuts::least_below, crate::proofs::Shortcuts::plain_sequences))]
pub fn sequences_ok(l: &[u8], n: usize, events: usize, calls: usize, found: EventTally) -> bool
    requires { ((table_length ≤ length l.now) × (n ≤ 64)) × ((events ≤ 256) × (calls ≤ 128)) × ((every (event_ok l.now) 0 events ≡ true) × (found.counts ≡ total (word_at l.now) counts_at events) × (events ≤ found.counts) × (found.few ≡ every (few_at l.now) 0 events)) }
    ensures { result ≡ sequences_ok l.now n events calls }
{
    let extra = 3 * (usize::from(found.counts) - events);
    match productions_tally(l, n, most_events(extra, least_events(found.few))) {
        Some(sums) => {
            (usize::from(sums.events) == events)
                & (usize::from(sums.calls) == calls)
                & sizes_ok(l, events, extra)
        }
        None => exact_ok(l, n, events, calls),
    }
}
