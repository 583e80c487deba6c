// The keysyms after `@` of a table's events. Most tables have none: one test finds that all words of their sections are 0, and
// only where that fails are they taken event by event.
#![tactic(auto)]

ghost use Rattle.std.specs.Prelude.{◌≡◌, ◌&&◌, ◌≤◌, ◌<◌, length};
ghost use Rattle.words.specs.Runs.{every, zero_in};
ghost use Rattle.tables.specs.Layout.{table_length};
ghost use Rattle.tables.specs.Fitting.{keysym_in_range, comes_after, keysyms_in_range};
ghost use Rattle.header_check.specs.Unused.{keysym_sections};
ghost use Rattle.keysym_check.specs.Slots.{no_keysym, keysyms_ok, slots_ok};

use model::events::Keysyms;
use tables::places;

// ---- One event. The tests are joined by `&` and `|`: `&&`, `||` and a range's `contains` would be exits, and the loop over events
// is compiled to vector instructions.

fn keysym_ok(s: u32) -> bool
    ensures { result ≡ keysym_in_range s }
{
    (s == 0) | ((0x20000000 <= s) & (s < 0x80000000))
}

fn after_ok(s: u32, next: u32) -> bool
    ensures { result ≡ comes_after s next }
{
    (next == 0) | ((s != 0) & (s % 0x20000000 < next % 0x20000000))
}

#[tactic(auto, unfolding(tables::specs::Fitting::keysyms_in_range))]
fn keysyms_ok(k: Keysyms) -> bool
    ensures { result ≡ keysyms_in_range k }
{
    keysym_ok(k.first)
        & keysym_ok(k.second)
        & keysym_ok(k.third)
        & keysym_ok(k.fourth)
        & after_ok(k.first, k.second)
        & after_ok(k.second, k.third)
        & after_ok(k.third, k.fourth)
}

#[tactic(auto, using(words::proofs::RunLaws::every_next), unfolding(words::specs::Runs::every, crate::specs::Slots::keysyms_ok))]
fn each_ok(l: &[u8], n: usize) -> bool
    requires { (table_length ≤ length l.now) × (n ≤ 256) }
    ensures { result ≡ every (keysyms_ok l.now) 0 n }
{
    let mut ok = true;
    for i in 0..n {
        ok &= keysyms_ok(tables::read::keysyms_at(l, i));
    }
    ok
}

// ---- All of them

const KEYSYM_SECTIONS: [usize; 8] = [
    places::FIRST_LOWS,
    places::FIRST_HIGHS,
    places::SECOND_LOWS,
    places::SECOND_HIGHS,
    places::THIRD_LOWS,
    places::THIRD_HIGHS,
    places::FOURTH_LOWS,
    places::FOURTH_HIGHS,
];

// The lower and the upper words of each of the four, which stand one after the other.
const PAIRS_OF_SECTIONS: [usize; 4] = [
    places::FIRST_LOWS,
    places::SECOND_LOWS,
    places::THIRD_LOWS,
    places::FOURTH_LOWS,
];

#[tactic(auto, unfolding(crate::specs::Slots::no_keysym))]
fn no_keysym(l: &[u8]) -> bool
    requires { table_length ≤ length l.now }
    ensures { result ≡ no_keysym l.now }
{
    words::zero_in(l, PAIRS_OF_SECTIONS, 0, 512)
}

// Whether those of n events are in range, and all beyond them 0.
#[tactic(auto, using(crate::proofs::NoKeysym::none_slots), unfolding(crate::specs::Slots::slots_ok))]
pub fn slots_ok(l: &[u8], n: usize) -> bool
    requires { (table_length ≤ length l.now) × (n ≤ 256) }
    ensures { result ≡ slots_ok l.now n }
{
    if no_keysym(l) {
        return true;
    }
    each_ok(l, n) & words::zero_in(l, KEYSYM_SECTIONS, n, 256)
}
