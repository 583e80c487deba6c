// Request R-1: the names whose bits the modifier map gives. Which bits they are under the maps in use, and what an event that
// lists names asks of a state there.
#![tactic(auto)]

ghost use Rattle.std.specs.Prelude.{◌≡◌, true, false, cond, ◌||◌, [], ◌∷◌, ℕ, ◌+◌, ◌<◌, eqb, length};
ghost use Rattle.std.specs.List.{list_any};
ghost use Rattle.model.specs.Lists.{any};
ghost use Rattle.model.specs.Named.{marked_keysym, is_listed};
ghost use Rattle.model.specs.Resolving.{is_bad_map, row_of, keycode_holds, named_keysym, names_of};
ghost use Rattle.model.specs.Modifiers.{bit};
ghost use Rattle.model.specs.Asked.{asked};
ghost use Rattle.modifiers.specs.Setting.{with_bit};
ghost use Rattle.keyboard.specs.Maps.{map_numbers, modifier_entries_in, lent_setting};
ghost use Rattle.resolving.specs.Gathering.{is_low_entry, MapsReady, bits_of, with_bits, gathered, testable_mask, other_bits, tested, resolved_test};

use keyboard::Pair;
use model::events::{KeptEvent, Keysyms};

// What is asked of a state: bits set, bits clear, and whether a name listed without `~` has no bit, so that nothing matches.
#[derive(Clone, Copy, Default)]
pub struct Resolved {
    pub set: u16,
    pub clear: u16,
    pub dead: bool,
}

// ---- The modifier map

// Whether some entry is 1..7. All are joined, with no early exit, so that the loop is compiled to vector instructions.
#[tactic(auto, using(crate::proofs::Entries::any_list))]
fn has_low_entry(modifiers: &[u8]) -> bool
    ensures { result ≡ any is_low_entry modifiers.now }
{
    let mut low = false;
    for c in modifiers {
        low |= (1..=7).contains(c);
    }
    low
}

// Number 18: not eight rows of equal length, 1 to 8 keycodes each, or an entry that is neither unused nor a keycode.
#[tactic(auto, unfolding(model::specs::Resolving::is_bad_map))]
pub fn is_bad_map(modifiers: &[u8]) -> bool
    ensures { result ≡ is_bad_map modifiers.now }
{
    let n = modifiers.len();
    (n % 8 != 0) || !(8..=64).contains(&n) || has_low_entry(modifiers)
}

// ---- The bits of a name

// Whether a pair has one of some keysyms. No early exit: of one or two keysyms the tests are joined without a branch.
fn pair_holds<const N: usize>(pair: Pair, keysyms: &[u32; N]) -> bool
    ensures { result ≡ list_any (λ v. eqb pair.first v || eqb pair.second v) keysyms.now }
{
    let mut holds = false;
    for k in keysyms {
        holds |= (pair.first == *k) | (pair.second == *k);
    }
    holds
}

// Whether a keycode of a row has one of some keysyms in its pair.
#[tactic(auto, using(crate::proofs::Rows::high_keycode, crate::proofs::Entries::any_list), unfolding(model::specs::Resolving::keycode_holds))]
fn keycode_holds<const N: usize>(maps: &[u8], keycode: u8, keysyms: &[u32; N]) -> bool
    requires { (length (map_numbers maps.now) ≡ 496) × (is_low_entry keycode ≡ false) }
    ensures { result ≡ keycode_holds (map_numbers maps.now) keysyms.now keycode }
{
    if keycode == 0 {
        return false;
    }
    pair_holds(keyboard::pair_at(maps, keycode), keysyms)
}

// The keycodes of the row of bit k.
fn row_of(maps: &[u8], k: usize) -> &[u8]
    requires { MapsReady maps.now × (k < 8) }
    ensures row { result.now ≡ row_of (modifier_entries_in maps.now) k }
    ensures known { any is_low_entry result.now ≡ false }
{
    let width = (maps.len() - 1984) / 8;
    let at = 1984 + k * width;
    &maps[at..at + width]
}

// Whether some keycode of a row has.
#[tactic(auto, using(crate::proofs::Entries::any_list))]
fn row_holds<const N: usize>(maps: &[u8], row: &[u8], keysyms: &[u32; N]) -> bool
    requires { MapsReady maps.now × (any is_low_entry row.now ≡ false) }
    ensures { result ≡ any (keycode_holds (map_numbers maps.now) keysyms.now) row.now }
{
    let mut holds = false;
    for keycode in row {
        holds |= keycode_holds(maps, *keycode, keysyms);
    }
    holds
}

// The bits of a name that stands for some keysyms.
#[tactic(auto, using(crate::proofs::Rows::row_steps))]
fn bits_of<const N: usize>(maps: &[u8], keysyms: &[u32; N]) -> u16
    requires { MapsReady maps.now }
    ensures { result ≡ bits_of (lent_setting maps.now 0) keysyms.now }
{
    let mut bits = 0;
    for k in 0..8 {
        if row_holds(maps, row_of(maps, usize::from(k)), keysyms) {
            bits = modifiers::with_bit(bits, k);
        }
    }
    bits
}

// ---- Names together

fn bits_if(asked: bool, bits: u16) -> u16
    ensures { result ≡ cond asked bits 0 }
{
    if asked { bits } else { 0 }
}

// What names ask, with one more that has these bits and is listed so.
#[tactic(auto, unfolding(crate::specs::Gathering::with_bits))]
fn with_bits(so: Resolved, bits: u16, set: bool, clear: bool) -> Resolved
    ensures { result ≡ with_bits so bits set clear }
{
    Resolved {
        set: bits_if(set, bits) | so.set,
        clear: bits_if(clear, bits) | so.clear,
        dead: (set & (bits == 0)) | so.dead,
    }
}

// The same with a name that stands for some keysyms. The rows are searched only where it is listed.
#[tactic(auto, using(crate::proofs::Asking::with_none))]
fn with_name<const N: usize>(
    maps: &[u8],
    so: Resolved,
    keysyms: &[u32; N],
    set: bool,
    clear: bool,
) -> Resolved
    requires { MapsReady maps.now }
    ensures { result ≡ with_bits so (bits_of (lent_setting maps.now 0) keysyms.now) set clear }
{
    if set | clear {
        with_bits(so, bits_of(maps, keysyms), set, clear)
    } else {
        so
    }
}

// With Meta, Alt, Hyper or Super, name n of those that an event lists.
fn with_modifier(maps: &[u8], so: Resolved, names: u8, n: u32, keysyms: &[u32; 2]) -> Resolved
    requires { MapsReady maps.now × (n < 4) }
    ensures { result ≡ with_bits so (bits_of (lent_setting maps.now 0) keysyms.now) (bit n names) (bit (n + 4) names) }
{
    let names = u16::from(names);
    let set = modifiers::bit(n, names);
    let clear = modifiers::bit(n + 4, names);
    with_name(maps, so, keysyms, set, clear)
}

// With a keysym after `@`, where there is one.
fn with_keysym(maps: &[u8], so: Resolved, s: u32) -> Resolved
    requires { MapsReady maps.now }
    ensures { result ≡ with_bits so (bits_of (lent_setting maps.now 0) (marked_keysym s ∷ [])) (is_listed false s) (is_listed true s) }
{
    let set = s / 0x20000000 % 2 == 1;
    let clear = s / 0x40000000 % 2 == 1;
    with_name(maps, so, &[s % 0x20000000], set, clear)
}

// What the keysyms of an event ask.
fn by_keysyms(maps: &[u8], k: Keysyms) -> Resolved
    requires { MapsReady maps.now }
    ensures { result ≡ gathered (lent_setting maps.now 0) (named_keysym k.first ∷ named_keysym k.second ∷ named_keysym k.third ∷ named_keysym k.fourth ∷ []) }
{
    let mut so = Resolved::default();
    for s in [k.fourth, k.third, k.second, k.first] {
        so = with_keysym(maps, so, s);
    }
    so
}

// What all its names ask: Meta, Alt, Hyper, Super by their left and right keysyms.
fn by_names(maps: &[u8], e: KeptEvent) -> Resolved
    requires { MapsReady maps.now }
    ensures { result ≡ gathered (lent_setting maps.now 0) (names_of e) }
{
    let so = by_keysyms(maps, e.keysyms);
    let so = with_modifier(maps, so, e.names, 3, &[0xffeb, 0xffec]);
    let so = with_modifier(maps, so, e.names, 2, &[0xffed, 0xffee]);
    let so = with_modifier(maps, so, e.names, 1, &[0xffe9, 0xffea]);
    with_modifier(maps, so, e.names, 0, &[0xffe7, 0xffe8])
}

// ---- What an event asks

// Of the 13 bits those that are tested: beside a colon not Shift and Lock.
fn testable(colon: bool) -> u16
    ensures { result ≡ testable_mask colon }
{
    if colon { 8188 } else { 8191 }
}

// With `!` the bits that are not listed.
fn other_bits(bang: bool, listed: u16) -> u16
    requires { listed < 8192 }
    ensures { result ≡ other_bits bang listed }
{
    if bang { 8191 - listed } else { 0 }
}

// An event's own bits and those of its names, tested together.
fn tested(set: u16, clear: u16, colon: bool, bang: bool, by: Resolved) -> Resolved
    requires { ((set < 8192) × (clear < 8192)) × ((by.set < 8192) × (by.clear < 8192)) }
    ensures { result ≡ tested set clear colon bang by }
{
    let t = testable(colon);
    let others = other_bits(bang, (set | clear) | (by.set | by.clear));
    Resolved {
        set: set | (t & by.set),
        clear: clear | (t & (by.clear | others)),
        dead: by.dead,
    }
}

// What an event asks of a state under these maps, whatever the multi-click time. Few events keep names: it is not made a part of
// the walk, which then has more registers.
#[inline(never)]
pub fn asked_of(maps: &[u8], e: KeptEvent) -> Resolved
    requires { MapsReady maps.now × (e.set < 8192) × (e.clear < 8192) }
    ensures { (limit : ℕ) → result ≡ resolved_test (asked (lent_setting maps.now limit) e) }
{
    let by = by_names(maps, e);
    tested(e.set, e.clear, e.colon, e.bang, by)
}
