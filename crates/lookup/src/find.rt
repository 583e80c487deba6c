// Lookup of a word in a range of the table of names.
ghost use Rattle.std.specs.Prelude.{◌≡◌, ◌&&◌, ◌+◌, ◌-◌, ◌≤◌, ◌<◌, eqb, length};
ghost use Rattle.model.specs.Lists.{part, same};
ghost use Rattle.names.specs.Places.{name_total};
ghost use Rattle.names.specs.Table.{name_row, packed, spelling_of, longest_name};
ghost use Rattle.lookup.specs.Find.{find_from};

use names::table;
use names::table::Spelling;

// The place of a name in the table.
#[derive(Clone, Copy)]
pub enum Found {
    At(usize),
    Nothing,
}

// Up to eight bytes of a word as one number, the first one lowest.
fn number_of(w: &[u8], from: usize, to: usize) -> u64
    requires { (from ≤ to) × (to ≤ length w.now) × (to ≤ from + 8) }
    ensures { result ≡ packed (part w.now from to) }
{
    let mut v: u64 = 0;
    let mut i = to;
    while from < i {
        i -= 1;
        v = v * 256 + w[i] as u64;
    }
    v
}

// The word as a name is spelled in the table.
fn spelling_of(w: &[u8]) -> Spelling
    requires { length w.now ≤ longest_name }
    ensures { result ≡ spelling_of w.now }
{
    let len = w.len();
    if len <= 8 {
        let low = number_of(w, 0, len);
        return Spelling(len, low, 0);
    }
    let low = number_of(w, 0, 8);
    let high = number_of(w, 8, len);
    Spelling(len, low, high)
}

fn is_same(a: Spelling, b: Spelling) -> bool
    ensures { result ≡ (eqb a.0 b.0 && (eqb a.1 b.1 && eqb a.2 b.2)) }
{
    (a.0 == b.0) & ((a.1 == b.1) & (a.2 == b.2))
}

// Whether the word is the name at a place.
pub fn is_name(w: &[u8], place: usize) -> bool
    requires { place < name_total }
    ensures { result ≡ same w.now (name_row place) }
{
    if table::LONGEST < w.len() {
        return false;
    }
    is_same(spelling_of(w), table::spelling_at(place))
}

// The first place in a range whose name is the word.
pub fn find(w: &[u8], from: usize, to: usize) -> Found
    requires { (from ≤ to) × (to ≤ name_total) }
    ensures { result ≡ find_from (to - from) from w.now }
{
    if table::LONGEST < w.len() {
        return Found::Nothing;
    }
    let own = spelling_of(w);
    let mut i = from;
    while i < to {
        if is_same(own, table::spelling_at(i)) {
            return Found::At(i);
        }
        i += 1;
    }
    Found::Nothing
}
