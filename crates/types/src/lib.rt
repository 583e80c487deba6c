// Which types of events the productions of a table have, expansion included: an event of any other type is dropped.
#![tactic(auto)]

ghost use Rattle.std.specs.Prelude.{◌≡◌, true, ℕ, Bool, ◌≤◌, ◌<◌, length};
ghost use Rattle.tables.specs.Reading.{decode};
ghost use Rattle.tables.specs.Whole.{whole};
ghost use Rattle.model.specs.Lists.{any};
ghost use Rattle.model.specs.Matching.{has_type};
ghost use Rattle.types.specs.Types.{any_below, other_code, has_code, has_either};
ghost use Rattle.tables.specs.Layout.{table_length};

use tables::places;

// The press of a release, and the release of a press.
fn other_code(code: u8) -> u8
    requires { code ≤ 5 }
    ensures { result ≡ other_code code }
{
    code + 1 - 2 * (code % 2)
}

// Whether a test passes at a number below n. No early exit, and tests of whole words, so that the loop is compiled to vector
// instructions.
fn any_below<F: Fn(usize) -> bool>(n: usize, test: F) -> bool
    requires { (i : ℕ) → i < n → F.pre test i }
    ensures { (passes : ℕ → Bool) → ((i : ℕ) (r : Bool) → i < n → F.post test i r → r ≡ passes i) → result ≡ any_below passes n }
{
    let mut hit = false;
    for i in 0..n {
        hit |= test(i);
    }
    hit
}

// Whether one of the first n events has this code.
fn has_code(table: &[u8], n: usize, code: u16) -> bool
    requires { (table_length ≤ length table.now) × (n ≤ 256) }
    ensures { result ≡ any_below (has_code table.now code) n }
{
    any_below(n, |i| words::word_at(table, places::CODES + i) == code)
}

// Whether one of them has this code, or has the other one and is counted: such an event stands for presses and releases. In
// a whole table every count is at least 1.
fn has_either(table: &[u8], n: usize, code: u16, other: u16) -> bool
    requires { (table_length ≤ length table.now) × (n ≤ 256) }
    ensures { result ≡ any_below (has_either table.now code other) n }
{
    any_below(n, |i| {
        let own = words::word_at(table, places::CODES + i);
        let counted = words::word_at(table, places::COUNTS + i) != 1;
        (own == code) | ((own == other) & counted)
    })
}

// Whether some production has an event of this type. Only keys and buttons are counted, whose codes are 2 to 5.
#[tactic(auto, using(fields::proofs::TableFacts::long_table, fields::proofs::TableFacts::few_events))]
pub fn has_type(table: &[u8], code: u8) -> bool
    requires { whole table.now ≡ true }
    ensures { result ≡ any (has_type code) (decode table.now).productions }
{
    let n = tables::read::event_count(table);
    if 5 < code {
        return has_code(table, n, u16::from(code));
    }
    has_either(table, n, u16::from(code), u16::from(other_code(code)))
}
