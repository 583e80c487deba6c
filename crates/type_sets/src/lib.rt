// R-5: the set of event types that a table names, expansion included, as a mask: bit c stands for code c. It is gathered by a scan
// of the events; a table does not keep it.
#![tactic(auto)]

ghost use Rattle.std.specs.Prelude.{◌≡◌, true, cond, ◌%◌, ◌^◌, ◌≤◌, eqb, length};
ghost use Rattle.tables.specs.Layout.{table_length};
ghost use Rattle.tables.specs.Reading.{decode};
ghost use Rattle.tables.specs.Whole.{whole};
ghost use Rattle.type_sets.specs.TypeSet.{type_set};
ghost use Rattle.type_sets.specs.Scan.{masks_joined, code_at, counted_at, code_bit, low_bit, pairs_of, types_gathered};

use tables::places;

// ---- Codes and counted codes, joined

fn counted_code(code: u16, count: u16) -> u16
    ensures { result ≡ cond (eqb count 1) 0 code }
{
    if count == 1 { 0 } else { code }
}

// The codes of some events, and those of the counted ones among them, each joined by `or`.
#[derive(Clone, Copy)]
pub struct CodeJoin {
    pub all: u16,
    pub counted: u16,
}

// No early exit, and numbers of 16 bits, so that the loop is compiled to vector instructions.
#[tactic(auto, using(crate::proofs::Joined::joined_none, crate::proofs::Joined::joined_more), unfolding(crate::specs::Scan::code_at, crate::specs::Scan::counted_at))]
fn join_codes(l: &[u8], n: usize) -> CodeJoin
    requires { (table_length ≤ length l.now) × (n ≤ 256) }
    ensures { (result.all ≡ masks_joined (code_at l.now) 0 n) × (result.counted ≡ masks_joined (counted_at l.now) 0 n) }
{
    let mut all: u16 = 0;
    let mut counted: u16 = 0;
    for i in 0..n {
        let code = words::word_at(l, places::CODES + i);
        let count = words::word_at(l, places::COUNTS + i);
        all |= code;
        counted |= counted_code(code, count);
    }
    CodeJoin { all, counted }
}

// ---- Codes as bits

fn low_bit(code: u16) -> u32
    ensures { result ≡ 2 ^ (code % 32) }
{
    1u32 << (code % 32)
}

fn code_bit(code: u16) -> u64
    ensures { result ≡ 2 ^ (code % 64) }
{
    1u64 << (code % 64)
}

// Codes below 32. In numbers of 32 bits the loop is compiled to vector instructions.
#[tactic(auto, unfolding(crate::specs::Scan::masks_joined, crate::specs::Scan::low_bit, crate::specs::Scan::code_at))]
fn low_codes(l: &[u8], n: usize) -> u32
    requires { (table_length ≤ length l.now) × (n ≤ 256) }
    ensures { result ≡ masks_joined (low_bit l.now) 0 n }
{
    (0..n).fold(
        0,
        |codes, i| codes | low_bit(words::word_at(l, places::CODES + i)),
    )
}

// All codes, in numbers of 64 bits. The two folds differ in the width alone: a trait for it would be longer than both.
#[tactic(auto, unfolding(crate::specs::Scan::masks_joined, crate::specs::Scan::code_bit, crate::specs::Scan::code_at))]
fn all_codes(l: &[u8], n: usize) -> u64
    requires { (table_length ≤ length l.now) × (n ≤ 256) }
    ensures { result ≡ masks_joined (code_bit l.now) 0 n }
{
    (0..n).fold(
        0,
        |codes, i| codes | code_bit(words::word_at(l, places::CODES + i)),
    )
}

// ---- The set

#[tactic(auto, unfolding(crate::specs::Scan::pairs_of))]
fn pairs_of(counted: u16) -> u64
    ensures { result ≡ pairs_of counted }
{
    u64::from(12 * (counted / 2 % 2) + 48 * (counted / 4 % 2))
}

// The types of the first n events.
#[tactic(auto, unfolding(crate::specs::Scan::types_gathered))]
pub fn gather(l: &[u8], n: usize) -> u64
    requires { (table_length ≤ length l.now) × (n ≤ 256) }
    ensures { result ≡ types_gathered l.now n }
{
    let joined = join_codes(l, n);
    let pairs = pairs_of(joined.counted);
    if joined.all < 32 {
        return u64::from(low_codes(l, n)) | pairs;
    }
    all_codes(l, n) | pairs
}

// The types that a whole table names.
#[tactic(auto, using(fields::proofs::TableFacts::long_table, fields::proofs::TableFacts::few_events))]
pub fn types_of(table: &[u8]) -> u64
    requires { whole table.now ≡ true }
    ensures { result ≡ type_set (decode table.now).productions }
{
    gather(table, tables::read::event_count(table))
}
