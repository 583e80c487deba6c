// Events against the elements of one production.
#![tactic(auto)]

ghost use Rattle.std.specs.Prelude.{◌≡◌, true, ℕ, ◌+◌, ◌-◌, ◌≤◌, ◌<◌, length, take, drop};
ghost use Rattle.std.specs.Prelude.{None};
ghost use Rattle.records.specs.Ranges.{EventRanges};
ghost use Rattle.tables.specs.Reading.{event_total, event_entry};
ghost use Rattle.tables.specs.Whole.{whole};
ghost use Rattle.words.specs.Runs.{run};
ghost use Rattle.model.specs.Counts.{expanded};
ghost use Rattle.keyboard.specs.Maps.{map_numbers, lent_setting};
ghost use Rattle.resolving.specs.Gathering.{MapsReady};
ghost use Rattle.states.specs.State.{slots_of};
ghost use Rattle.follow.specs.Follow.{event_meets, detail_asked, bits_meet, element_of, fits_after, walked, size_in, WalkReady};

use keyboard::KeyTest;
use model::events::Event;
use states::slots;

// How a stretch of events and the sequence of a production compare.
#[derive(Clone, Copy)]
pub enum Followed {
    // The stretch does not read as a prefix.
    No,
    Prefix,
    // The stretch is the whole sequence.
    Whole,
}

// Whether an event has the detail that is asked for: of a key, the keysym under the keyboard map.
#[tactic(auto, unfolding(crate::specs::Follow::detail_asked))]
fn detail_met(maps: &[u8], test: KeyTest, x: Event) -> bool
    requires { (length (map_numbers maps.now) ≡ 496) × EventRanges x }
    ensures { result ≡ detail_asked (map_numbers maps.now) test.set test.clear test.colon test.detail x }
{
    if x.code <= 3 {
        return keyboard::pair_matches(test, keyboard::pair_at(maps, x.detail), x.state);
    }
    u32::from(x.detail) == test.detail
}

// Whether an event meets a test of these bits with the clause, and the detail, of event i of a table.
#[tactic(auto, using(fields::proofs::TableFacts::table_rules), unfolding(crate::specs::Follow::bits_meet, tables::specs::Reading::event_entry, tables::specs::Reading::event_from_words, fields::specs::Fields::flags_in, fields::specs::Fields::value_in))]
fn test_meets(table: &[u8], maps: &[u8], i: usize, set: u16, clear: u16, x: Event) -> bool
    requires { ((whole table.now ≡ true) × (i < event_total table.now)) × ((length (map_numbers maps.now) ≡ 496) × EventRanges x) × ((set < 8192) × (clear < 8192)) }
    ensures { result ≡ bits_meet (map_numbers maps.now) set clear (event_entry table.now i) x }
{
    let flags = fields::flags_at(table, i);
    if !modifiers::state_meets(set, clear, fields::is_flag(2, flags), x.state) {
        return false;
    }
    if !fields::is_flag(4, flags) {
        return true;
    }
    let test = KeyTest {
        set,
        clear,
        colon: fields::is_flag(1, flags),
        detail: fields::value_at(table, i),
    };
    detail_met(maps, test, x)
}

// Whether an event meets event i of a table, which keeps `!` or names: they are resolved under the maps.
#[tactic(auto, using(fields::proofs::TableFacts::table_rules))]
fn named_meets(table: &[u8], maps: &[u8], i: usize, x: Event) -> bool
    requires { ((whole table.now ≡ true) × (i < event_total table.now)) × (MapsReady maps.now × EventRanges x) }
    ensures { (limit : ℕ) → result ≡ event_meets (lent_setting maps.now limit) (event_entry table.now i) x }
{
    let asked = resolving::asked_of(maps, tables::read::event_at(table, i));
    if asked.dead {
        return false;
    }
    test_meets(table, maps, i, asked.set, asked.clear, x)
}

// Whether an event meets the test and the detail of event i of a table, whatever the multi-click time. Most keep no name, and
// ask their own bits.
#[tactic(auto, using(fields::proofs::TableFacts::table_rules))]
fn event_meets(table: &[u8], maps: &[u8], i: usize, x: Event) -> bool
    requires { ((whole table.now ≡ true) × (i < event_total table.now)) × (MapsReady maps.now × EventRanges x) }
    ensures { (limit : ℕ) → result ≡ event_meets (lent_setting maps.now limit) (event_entry table.now i) x }
{
    if fields::names_at(table, i) {
        return named_meets(table, maps, i, x);
    }
    let set = fields::set_at(table, i);
    let clear = fields::clear_at(table, i);
    test_meets(table, maps, i, set, clear, x)
}

// Whether event x fits element k of event i of a table. `before` is the time of the event two before it.
#[tactic(auto, using(fields::proofs::TableFacts::table_rules), unfolding(crate::specs::Follow::fits_after, crate::specs::Follow::element_of))]
fn element_fits(
    table: &[u8],
    maps: &[u8],
    limit: u32,
    i: usize,
    k: usize,
    before: u32,
    x: Event,
) -> bool
    requires { ((whole table.now ≡ true) × (i < event_total table.now)) × (MapsReady maps.now × EventRanges x) }
    ensures { result ≡ fits_after (lent_setting maps.now limit) before (element_of (event_entry table.now i) k) x }
{
    let code = fields::code_at(table, i);
    let count = fields::count_at(table, i);
    if counts::element_code(code, count, k) != x.code {
        return false;
    }
    if !event_meets(table, maps, i, x) {
        return false;
    }
    if !counts::is_timed(code, count, k) {
        return true;
    }
    counts::quick(limit, before, x.time)
}

// How many elements event i of a table has.
#[tactic(auto, using(fields::proofs::TableFacts::table_rules), unfolding(crate::specs::Follow::size_in))]
fn size_at(table: &[u8], i: usize) -> usize
    requires { (whole table.now ≡ true) × (i < event_total table.now) }
    ensures { result ≡ size_in table.now i }
{
    let code = fields::code_at(table, i);
    let count = fields::count_at(table, i);
    counts::element_count(code, count)
}

// The place of the event two before the one at j, which an element k of a counted event may ask for from k = 2 on.
fn two_before(j: usize, k: usize) -> usize
    requires { k ≤ j }
    ensures { (result ≤ j) × (2 ≤ k → result ≡ j - 2) }
{
    if k < 2 {
        return j;
    }
    j - 2
}

// Events from..to against the elements of n events of a table. Most productions are ruled out by the first code.
#[tactic(auto, using(fields::proofs::TableFacts::table_rules))]
pub fn follow(
    table: &[u8],
    maps: &[u8],
    limit: u32,
    first: usize,
    n: usize,
    events: &[u8],
    from: usize,
    to: usize,
) -> Followed
    requires { WalkReady table.now maps.now events.now to × (from ≤ to) × (first + n ≤ event_total table.now) }
    ensures { result ≡ walked (lent_setting maps.now limit) None None (expanded (run (event_entry table.now) first n)) (drop from (take to (slots_of events.now))) }
{
    let last = first + n;
    let mut i = first;
    let mut k: usize = 0;
    for j in from..to {
        if last <= i {
            return Followed::No;
        }
        let x = slots::event_at(events, j);
        let at = two_before(j, k);
        let b = slots::event_at(events, at);
        if !element_fits(table, maps, limit, i, k, b.time, x) {
            return Followed::No;
        }
        k += 1;
        if k == size_at(table, i) {
            k = 0;
            i += 1;
        }
    }
    if i < last {
        Followed::Prefix
    } else {
        Followed::Whole
    }
}
