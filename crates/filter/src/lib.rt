// A quick test of the events of a table, by two words of each: most productions are ruled out by it.
#![tactic(auto)]

ghost use Rattle.std.specs.Prelude.{◌≡◌, ℕ, Bool, true, cond, ◌-◌, ◌≤◌, ◌<◌, length};
ghost use Rattle.records.specs.Ranges.{EventRanges};
ghost use Rattle.keyboard.specs.Maps.{map_numbers};
ghost use Rattle.tables.specs.Reading.{event_total};
ghost use Rattle.tables.specs.Whole.{whole};
ghost use Rattle.filter.specs.Filter.{other, sought_of, code_seems, detail_seems, seems, suits, may_begin, pairs, code_begins, PassersWithin};
ghost use Rattle.tables.specs.Layout.{table_length};

use model::events::Event;
use tables::places;

// What an event asks of the table's: its code, its state, and its detail or, of a key, the keysyms of its pair, folded.
#[derive(Clone, Copy)]
pub struct Sought {
    pub code: u16,
    pub state: u16,
    pub first: u16,
    pub second: u16,
}

// The second keysym of a pair; where it is 0 the first stands for both.
fn other(a: u32, b: u32) -> u32
    ensures { result ≡ other a b }
{
    if b == 0 { a } else { b }
}

#[tactic(auto, unfolding(crate::specs::Filter::sought_of))]
pub fn sought_of(maps: &[u8], x: Event) -> Sought
    requires { (length (map_numbers maps.now) ≡ 496) × EventRanges x }
    ensures { result ≡ sought_of (map_numbers maps.now) x }
{
    let code = u16::from(x.code);
    let state = x.state;
    if x.code <= 3 {
        let pair = keyboard::pair_at(maps, x.detail);
        return Sought {
            code,
            state,
            first: keyboard::folded(pair.first),
            second: keyboard::folded(other(pair.first, pair.second)),
        };
    }
    let detail = keyboard::folded(u32::from(x.detail));
    Sought {
        code,
        state,
        first: detail,
        second: detail,
    }
}

// Whether the codes are the same but for the last bit, as those of a press and its release are: 2 and 3 of keys, 4 and 5 of
// buttons. A counted release begins with a press. Other codes that pass are told apart by the walk.
#[tactic(auto, unfolding(crate::specs::Filter::code_seems))]
fn code_seems(own: u16, s: Sought) -> bool
    ensures { result ≡ code_seems own s }
{
    let code = s.code;
    own / 2 == code / 2
}

#[tactic(auto, unfolding(crate::specs::Filter::detail_seems))]
fn detail_seems(low: u16, s: Sought) -> bool
    ensures { result ≡ detail_seems low s }
{
    let word = keyboard::fold(low);
    let first = s.first;
    let second = s.second;
    (low == 0) | (word == first) | (word == second)
}

// Whether event i of a table may be met first by what is sought.
#[tactic(auto, unfolding(crate::specs::Filter::seems))]
fn seems(table: &[u8], i: usize, s: Sought) -> bool
    requires { (table_length ≤ length table.now) × (i ≤ 256) }
    ensures { result ≡ seems table.now i s }
{
    let own = words::word_at(table, places::CODES + i);
    let low = words::word_at(table, places::LOWS + i);
    code_seems(own, s) & detail_seems(low, s)
}

// The same, by the code alone where that is another: one event at a time this is faster.
#[tactic(auto, unfolding(crate::specs::Filter::seems))]
pub fn seems_one(table: &[u8], i: usize, s: Sought) -> bool
    requires { (table_length ≤ length table.now) × (i ≤ 256) }
    ensures { result ≡ seems table.now i s }
{
    let own = words::word_at(table, places::CODES + i);
    code_seems(own, s) && detail_seems(words::word_at(table, places::LOWS + i), s)
}

// Whether the state has the bits that event i asks set. Those that it asks clear are left to the walk.
#[tactic(auto, unfolding(crate::specs::Filter::suits, tables::specs::Reading::event_entry, tables::specs::Reading::event_from_words))]
fn suits(table: &[u8], i: usize, s: Sought) -> bool
    requires { (table_length ≤ length table.now) × (i < 256) }
    ensures { result ≡ suits table.now i s }
{
    let set = fields::set_at(table, i);
    s.state & set == set
}

// Whether event i may begin a production for a stretch of one event.
#[tactic(auto, unfolding(crate::specs::Filter::may_begin))]
fn begins(table: &[u8], one: Sought, i: usize) -> bool
    requires { (table_length ≤ length table.now) × (i < 256) }
    ensures { result ≡ may_begin table.now one i }
{
    seems(table, i, one) & suits(table, i, one)
}

// Whether event i may begin a production for a stretch that begins with `one` and goes on with `two`. In a whole table every
// count is at least 1.
#[tactic(auto, unfolding(crate::specs::Filter::pairs))]
fn pairs(table: &[u8], one: Sought, two: Sought, i: usize) -> bool
    requires { (table_length ≤ length table.now) × (i < 256) }
    ensures { result ≡ pairs table.now one two i }
{
    let counted = words::word_at(table, places::COUNTS + i) != 1;
    seems(table, i, one) & (counted | seems(table, i + 1, two))
}

// Bounds of where the events stand with which a production may begin: none before `low`, and none from `high` on. They serve
// for speed alone and may be wide; for one such event the upper one is exact, and where there is none both are 0.
#[derive(Clone, Copy)]
pub struct Reach {
    pub low: u16,
    pub high: u16,
}

// A number where a test holds, and 0 where it does not.
fn only(own: u16, holds: bool) -> u16
    ensures { result ≡ cond holds own 0 }
{
    if holds { own } else { 0 }
}

// The lower bound, by the numbers 256 - i of the events i, joined by `|`. What is joined is at least each of its parts.
fn low_of(turned: u16) -> u16
    ensures { result ≤ 256 - turned }
{
    match turned {
        1..=256 => 256 - turned,
        _ => 0,
    }
}

// Where those of n events stand that pass a test. No early exit, and no number above 16 bits, so that the loop is compiled to
// vector instructions.
fn reach_by<F: Fn(usize) -> bool>(n: usize, test: F) -> Reach
    requires few { n ≤ 256 }
    requires callable { (i : ℕ) → i < n → F.pre test i }
    ensures { (passes : ℕ → Bool) → ((i : ℕ) (r : Bool) → i < n → F.post test i r → r ≡ passes i) → PassersWithin passes n result.low result.high }
{
    let mut high: u16 = 0;
    let mut turned: u16 = 0;
    for i in 0..n {
        let holds = test(i);
        let k = i as u16;
        high |= only(k + 1, holds);
        turned |= only(256 - k, holds);
    }
    Reach {
        low: low_of(turned),
        high,
    }
}

// Where the events stand that may begin a production for a stretch of one event.
#[tactic(auto, using(fields::proofs::TableFacts::table_rules))]
pub fn reach_alone(table: &[u8], one: Sought) -> Reach
    requires { whole table.now ≡ true }
    ensures { PassersWithin (may_begin table.now one) (event_total table.now) result.low result.high }
{
    reach_by(tables::read::event_count(table), |i| begins(table, one, i))
}

// The same for a longer stretch, without the lower bound, which is then not worked out: mostly there is no such event.
#[tactic(auto, using(fields::proofs::TableFacts::table_rules))]
pub fn reach_paired(table: &[u8], one: Sought, two: Sought) -> Reach
    requires { whole table.now ≡ true }
    ensures { PassersWithin (pairs table.now one two) (event_total table.now) result.low result.high }
{
    Reach {
        low: 0,
        ..reach_by(
            tables::read::event_count(table),
            |i| pairs(table, one, two, i),
        )
    }
}

// The same by the code alone: of events other than keys few stand in a table, and one word of each is read.
#[tactic(auto, using(fields::proofs::TableFacts::table_rules))]
pub fn reach_of_code(table: &[u8], one: Sought) -> Reach
    requires { whole table.now ≡ true }
    ensures { PassersWithin (code_begins table.now one) (event_total table.now) result.low result.high }
{
    reach_by(
        tables::read::event_count(table),
        |i| code_seems(words::word_at(table, places::CODES + i), one),
    )
}
