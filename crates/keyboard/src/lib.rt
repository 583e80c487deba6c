// Keyboard lookup: the keysym that a keycode's pair gives under Shift and Lock, and whether it is the one asked for.
#![tactic(auto)]

ghost use Rattle.std.specs.Prelude.{◌≡◌, ◌+◌, ◌≤◌, ◌<◌, Bool, length};
ghost use Rattle.model.specs.Lists.{any};
ghost use Rattle.model.specs.Keyboard.{is_lower, is_upper, upper, lower, picked, keysym_of, settings};
ghost use Rattle.keyboard.specs.Folds.{fold, folded};
ghost use Rattle.keyboard.specs.Maps.{number_from, map_numbers};
ghost use Rattle.keyboard.specs.Pairs.{pair_at, lock_gives, pair_asked};

// The two keysyms that a keyboard map has for a keycode.
#[derive(Clone, Copy)]
pub struct Pair {
    pub first: u32,
    pub second: u32,
}

// The number that four bytes hold from a place on, the least significant first. It is compiled to one load.
#[tactic(auto, unfolding(crate::specs::Maps::number_from))]
pub fn number_from(l: &[u8], at: usize) -> u32
    requires { at + 4 ≤ length l.now }
    ensures { result ≡ number_from l.now at }
{
    u32::from_le_bytes([l[at], l[at + 1], l[at + 2], l[at + 3]])
}

// Two numbers of the keyboard map, with which lent maps begin, for each keycode from 8 on.
pub fn pair_at(maps: &[u8], keycode: u8) -> Pair
    requires { (length (map_numbers maps.now) ≡ 496) × (8 ≤ keycode) }
    ensures { result ≡ pair_at (map_numbers maps.now) keycode }
{
    let at = 8 * (usize::from(keycode) - 8);
    Pair {
        first: number_from(maps, at),
        second: number_from(maps, at + 4),
    }
}

#[tactic(auto, unfolding(model::specs::Keyboard::is_lower))]
fn is_lower(k: u32) -> bool
    ensures { result ≡ is_lower k }
{
    matches!(k, 0x61..=0x7A | 0xE0..=0xF6 | 0xF8..=0xFE)
}

#[tactic(auto, unfolding(model::specs::Keyboard::is_upper))]
fn is_upper(k: u32) -> bool
    ensures { result ≡ is_upper k }
{
    matches!(k, 0x41..=0x5A | 0xC0..=0xD6 | 0xD8..=0xDE)
}

// The upper case of a keysym; its own where it is no lower-case letter.
#[tactic(auto, using(crate::proofs::Pairs::lower_letter), unfolding(model::specs::Keyboard::upper))]
pub fn upper(k: u32) -> u32
    ensures { result ≡ upper k }
{
    if is_lower(k) { k - 0x20 } else { k }
}

#[tactic(auto, using(crate::proofs::Pairs::upper_letter), unfolding(model::specs::Keyboard::lower))]
pub fn lower(k: u32) -> u32
    ensures { result ≡ lower k }
{
    if is_upper(k) { k + 0x20 } else { k }
}

// The keysym that Shift picks of a pair. Where the second is 0, a letter's pair is its two cases.
#[tactic(auto, unfolding(model::specs::Keyboard::picked))]
fn picked(pair: Pair, shift: bool) -> u32
    ensures { result ≡ picked pair.first pair.second shift }
{
    match (shift, pair.second) {
        (true, 0) => upper(pair.first),
        (true, second) => second,
        (false, 0) => lower(pair.first),
        (false, _) => pair.first,
    }
}

// The keysym that a pair gives under Shift and Lock.
#[tactic(auto, unfolding(model::specs::Keyboard::keysym_of, model::specs::Keyboard::raised))]
pub fn keysym_of(pair: Pair, shift: bool, lock: bool) -> u32
    ensures { result ≡ keysym_of pair.first pair.second shift lock }
{
    let k = picked(pair, shift);
    if lock { upper(k) } else { k }
}

// Whether a test passes under the given setting of Shift or Lock or, where that is not cared for, under either.
fn under_either<F: Fn(bool) -> bool>(cares: bool, given: bool, test: F) -> bool
    requires { F.IsAlwaysCallable test }
    ensures { (passes : Bool → Bool) → ((is r : Bool) → F.post test is r → r ≡ passes is) → result ≡ any passes (settings cares given) }
{
    test(given) || (!cares && test(!given))
}

// Whether a pair gives the detail under this Shift and under the event's Lock or, where Lock is not cared for, either.
fn lock_gives(pair: Pair, shift: bool, cares: bool, lock: bool, detail: u32) -> bool
    ensures { result ≡ lock_gives pair.first pair.second shift cares lock detail }
{
    under_either(cares, lock, |l| keysym_of(pair, shift, l) == detail)
}

// What a production's event asks of a key: the bits asked set, those asked clear, its colon, and the keysym.
#[derive(Clone, Copy)]
pub struct KeyTest {
    pub set: u16,
    pub clear: u16,
    pub colon: bool,
    pub detail: u32,
}

// Whether the pair of an event with this state gives the keysym that is asked for.
pub fn pair_matches(test: KeyTest, pair: Pair, state: u16) -> bool
    ensures { result ≡ pair_asked test.set test.clear test.colon pair.first pair.second state test.detail }
{
    let shift = modifiers::bit(0, state);
    let lock = modifiers::bit(1, state);
    // Not joined to what is cared for, so that a swap of Shift and Lock below is wrong without a colon alone.
    if test.colon {
        return keysym_of(pair, shift, lock) == test.detail;
    }
    let cares_shift = modifiers::bit(0, test.set) | modifiers::bit(0, test.clear);
    let cares_lock = modifiers::bit(1, test.set) | modifiers::bit(1, test.clear);
    under_either(
        cares_shift,
        shift,
        |s| lock_gives(pair, s, cares_lock, lock, test.detail),
    )
}

// A word without bit 5, in which the two cases of a letter differ.
#[tactic(auto, unfolding(crate::specs::Folds::fold))]
pub fn fold(w: u16) -> u16
    ensures { result ≡ fold w }
{
    w - 32 * (w / 32 % 2)
}

// The low word of a keysym, folded: a quick first comparison, in which all the keysyms that a pair gives count as its two.
#[tactic(auto, unfolding(crate::specs::Folds::folded))]
pub fn folded(k: u32) -> u16
    ensures { result ≡ folded k }
{
    fold((k % 65536) as u16)
}
