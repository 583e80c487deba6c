// Single words of the events of a table: a production is mostly ruled out by one.
#![tactic(auto)]

ghost use Rattle.std.specs.Prelude.{◌≡◌, ◌≤◌, ◌<◌, length, true};
ghost use Rattle.model.specs.Named.{kept_as_written};
ghost use Rattle.tables.specs.Reading.{event_total, event_entry, is_flag};
ghost use Rattle.tables.specs.Whole.{whole};
ghost use Rattle.fields.specs.Fields.{flags_in, value_in};
ghost use Rattle.tables.specs.Layout.{table_length};

use tables::places;

// One function for each field of an event, since each has a contract of its own: a place passed in would not say which field it is.

#[tactic(auto, unfolding(tables::specs::Reading::event_entry, tables::specs::Reading::event_from_words))]
pub fn code_at(table: &[u8], i: usize) -> u8
    requires { (table_length ≤ length table.now) × (i < 256) }
    ensures { result ≡ (event_entry table.now i).code }
{
    (words::word_at(table, places::CODES + i) % 256) as u8
}

#[tactic(auto, unfolding(tables::specs::Reading::event_entry, tables::specs::Reading::event_from_words))]
pub fn count_at(table: &[u8], i: usize) -> u8
    requires { (table_length ≤ length table.now) × (i < 256) }
    ensures { result ≡ (event_entry table.now i).count }
{
    (words::word_at(table, places::COUNTS + i) % 256) as u8
}

#[tactic(auto, unfolding(tables::specs::Reading::event_entry, tables::specs::Reading::event_from_words))]
pub fn set_at(table: &[u8], i: usize) -> u16
    requires { (table_length ≤ length table.now) × (i < 256) }
    ensures { result ≡ (event_entry table.now i).set }
{
    words::word_at(table, places::SETS + i)
}

#[tactic(auto, unfolding(tables::specs::Reading::event_entry, tables::specs::Reading::event_from_words))]
pub fn clear_at(table: &[u8], i: usize) -> u16
    requires { (table_length ≤ length table.now) × (i < 256) }
    ensures { result ≡ (event_entry table.now i).clear }
{
    words::word_at(table, places::CLEARS + i)
}

#[tactic(auto, unfolding(crate::specs::Fields::flags_in))]
pub fn flags_at(table: &[u8], i: usize) -> u16
    requires { (table_length ≤ length table.now) × (i < 256) }
    ensures { result ≡ flags_in table.now i }
{
    words::word_at(table, places::FLAGS + i)
}

// The detail that is asked for, of two words.
#[tactic(auto, unfolding(crate::specs::Fields::value_in))]
pub fn value_at(table: &[u8], i: usize) -> u32
    requires { (table_length ≤ length table.now) × (i < 256) }
    ensures { result ≡ value_in table.now i }
{
    let low = words::word_at(table, places::LOWS + i);
    let high = words::word_at(table, places::HIGHS + i);
    u32::from(low) + 65536 * u32::from(high)
}

// Whether a flag is set: 1, 2, 4 or 8.
pub fn is_flag(value: u16, flags: u16) -> bool
    requires { 0 < value }
    ensures { result ≡ is_flag value flags }
{
    flags / value % 2 == 1
}

// Whether the event keeps `!`, or a name whose bits the modifier map gives. A keysym after `@` has a mark in its upper word.
#[tactic(auto, using(crate::proofs::TableFacts::long_table, crate::proofs::TableFacts::few_events))]
pub fn names_at(table: &[u8], i: usize) -> bool
    requires { (whole table.now ≡ true) × (i < event_total table.now) }
    ensures { result ≡ kept_as_written (event_entry table.now i) }
{
    let flags = words::word_at(table, places::FLAGS + i);
    let high = words::word_at(table, places::FIRST_HIGHS + i);
    is_flag(8, flags) | ((flags / 256 % 256 != 0) | (high != 0))
}
