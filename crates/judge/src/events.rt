// The checks on one event, in document 01's order, and the event that is kept.
ghost use Rattle.std.specs.Prelude.{◌≡◌, ◌-◌, ◌<◌, cond};
ghost use Rattle.model.specs.Numbers.{event_order};
ghost use Rattle.model.specs.Bytes.{byte_at};
ghost use Rattle.model.specs.Codes.{is_key, takes_count, takes_modifiers};
ghost use Rattle.model.specs.Modifiers.{adds_bit};
ghost use Rattle.model.specs.Names.{shift_bit};
ghost use Rattle.model.specs.Judging.{is_one_digit, key_press_of, judged_mark};
ghost use Rattle.model.specs.declared.names.Added.{Added};
ghost use Rattle.list_masks.specs.Summary.{SummaryIn, AddedIn};
ghost use Rattle.judge.specs.Judged.{count_of, count_summary, read_summary, detail_summary, has_standard_bits, colon_misplaced, event_of_parts, judged_parts};

use keysym_list::no_keysyms;
use list_masks::lists::{ListSummary, clause_of, clear_of, forms_of, set_of};
use model::answers::Judged;
use model::events::{Detail, KeptEvent};
use model::names::{Added, DetailRead, EventType};
use model::scan::KeyMark;

// A written count, or none.
#[derive(Clone, Copy)]
pub struct CountSummary {
    // Not one digit 1..9, or on an event that takes none.
    pub bad: bool,
    // With `+`.
    pub unbuilt: bool,
    // 1 where none is written.
    pub value: u8,
}

// A written detail, or none.
#[derive(Clone, Copy)]
pub struct DetailSummary {
    pub unknown: bool,
    pub too_large: bool,
    pub unbuilt: bool,
    // What is kept where it is none of these.
    pub kept: Detail,
}

// The number of the first check that applies, 0 where none does.
pub fn event_order(
    unknown: bool,
    range: bool,
    unbuilt: bool,
    list: bool,
    colon: bool,
    impossible: bool,
) -> u8
    ensures { result ≡ event_order unknown range unbuilt list colon impossible }
{
    if unknown {
        return 5;
    }
    if range {
        return 6;
    }
    if unbuilt {
        return 10;
    }
    if list {
        return 7;
    }
    if colon {
        return 9;
    }
    if impossible {
        return 8;
    }
    0
}

pub fn is_key(code: u8) -> bool
    ensures { result ≡ is_key code }
{
    (2 <= code) & (code <= 3)
}

pub fn takes_count(code: u8) -> bool
    ensures { result ≡ takes_count code }
{
    (2 <= code) & (code <= 5)
}

pub fn takes_modifiers(code: u8) -> bool
    ensures { result ≡ takes_modifiers code }
{
    (2 <= code) & (code <= 8)
}

pub fn adds_shift(added: Added) -> bool
    ensures { result ≡ adds_bit added shift_bit }
{
    match added {
        Added::Nothing => false,
        Added::Modifier(k) => k == 0,
        Added::AnyButton => false,
        Added::Meta => false,
    }
}

// The first byte of a count, 0 where there is none.
pub fn first_byte(digits: &[u8]) -> u8
    ensures { result ≡ byte_at digits.now 0 }
{
    if digits.len() == 0 {
        return 0;
    }
    digits[0]
}

pub fn is_one_digit(digits: &[u8]) -> bool
    ensures { result ≡ is_one_digit digits.now }
{
    let b = first_byte(digits);
    let one = digits.len() == 1;
    one & ((49 <= b) & (b <= 57))
}

// A digit's value, 0 for a byte below the digits.
pub fn digit_value(b: u8) -> u8
    ensures { result ≡ b - 48 }
{
    if b < 48 {
        return 0;
    }
    b - 48
}

pub fn count_of(code: u8, counted: bool, plus: bool, digits: &[u8]) -> CountSummary
    ensures { result ≡ count_summary code (count_of counted plus digits.now) }
{
    if !counted {
        return CountSummary {
            bad: false,
            unbuilt: false,
            value: 1,
        };
    }
    let taken = takes_count(code);
    let one = is_one_digit(digits);
    let first = first_byte(digits);
    let value = digit_value(first);
    CountSummary {
        bad: !taken | !one,
        unbuilt: plus,
        value,
    }
}

// A detail of at least one byte, from what it reads to.
pub fn of_read(read: DetailRead) -> DetailSummary
    ensures { result ≡ read_summary read }
{
    let mut d = DetailSummary {
        unknown: false,
        too_large: false,
        unbuilt: false,
        kept: Detail::Unspecified,
    };
    match read {
        DetailRead::Value(v) => DetailSummary {
            unknown: false,
            too_large: false,
            unbuilt: false,
            kept: Detail::Value(v),
        },
        DetailRead::Unknown => {
            d.unknown = true;
            d
        }
        DetailRead::TooLarge => {
            d.too_large = true;
            d
        }
        DetailRead::NotBuilt => {
            d.unbuilt = true;
            d
        }
    }
}

// A written detail, of no bytes where none is written. A type that fixes the detail takes none.
pub fn detail_of(ty: EventType, word: &[u8]) -> DetailSummary
    ensures { result ≡ detail_summary ty word.now }
{
    let fixed = ty.detail;
    if word.len() == 0 {
        return DetailSummary {
            unknown: false,
            too_large: false,
            unbuilt: false,
            kept: fixed,
        };
    }
    match fixed {
        Detail::Value(_) => of_read(DetailRead::Unknown),
        Detail::Unspecified => of_read(lookup::detail_named(ty.code, word)),
    }
}

// Whether Shift or Lock is listed, with `~` or without.
fn lists_standard(set: u16, clear: u16) -> bool
    ensures { result ≡ has_standard_bits set clear }
{
    let shift_set = modifiers::bit(0, set);
    let shift_clear = modifiers::bit(0, clear);
    let lock_set = modifiers::bit(1, set);
    let lock_clear = modifiers::bit(1, clear);
    (shift_set | shift_clear) | (lock_set | lock_clear)
}

// A colon on a non-key event, or beside Shift or Lock.
pub fn colon_misplaced(s: ListSummary, ty: EventType) -> bool
    ensures { result ≡ colon_misplaced s ty }
{
    let added = ty.added;
    let key = is_key(ty.code);
    let standard = lists_standard(s.set, s.clear);
    let shift = adds_shift(added);
    s.colon & (!key | (standard | shift))
}

// The bits kept clear: beside names those listed, as they are written.
fn kept_clear(named: bool, listed: u16, clear: u16) -> u16
    ensures { result ≡ cond named listed clear }
{
    if named { listed } else { clear }
}

// An event of a known type from its parts. All six checks are made, and then the first that applies is picked.
pub fn judge_parts(ty: EventType, s: ListSummary, c: CountSummary, d: DetailSummary) -> Judged
    requires { SummaryIn s × AddedIn ty.added }
    ensures { result ≡ judged_parts s ty c d }
{
    let added = ty.added;
    let set = set_of(s.set, added);
    let clear = clear_of(s);
    let clause = clause_of(added, set);
    let takes = takes_modifiers(ty.code);
    let colon = colon_misplaced(s, ty);
    let impossible = modifiers::no_state_meets(set, clear, clause);
    let n = event_order(
        s.unknown | d.unknown,
        s.too_large | c.bad | d.too_large,
        c.unbuilt | d.unbuilt,
        s.written & !takes,
        colon,
        impossible,
    );
    if n != 0 {
        return Judged::Refuse(n);
    }
    if s.over {
        return Judged::Crowded;
    }
    Judged::Keep(kept_event(ty, s, c, d, set, clear, clause))
}

// The event that is kept, from its masks.
fn kept_event(
    ty: EventType,
    s: ListSummary,
    c: CountSummary,
    d: DetailSummary,
    set: u16,
    clear: u16,
    clause: bool,
) -> KeptEvent
    ensures { result ≡ event_of_parts s ty c d set clear clause }
{
    let added = ty.added;
    let kept = d.kept;
    let keysyms = s.keysyms;
    let names = forms_of(s.names, added);
    let named = (names != 0) | (keysyms.first != 0);
    KeptEvent {
        code: ty.code,
        set,
        clear: kept_clear(named, s.clear, clear),
        colon: s.colon,
        clause,
        detail: kept,
        count: c.value,
        bang: named & s.others_clear,
        names,
        keysyms,
    }
}

// A character of a key sequence: `^` adds Ctrl, and `$` reads as Meta listed.
pub fn judge_key(mark: KeyMark, byte: u8) -> Judged
    ensures { result ≡ judged_mark mark byte }
{
    match mark {
        KeyMark::Plain => Judged::Keep(key_press(0, 0, byte)),
        KeyMark::Control => Judged::Keep(key_press(4, 0, byte)),
        KeyMark::Quoted => Judged::Keep(key_press(0, 0, byte)),
        KeyMark::Meta => Judged::Keep(key_press(0, 1, byte)),
    }
}

// A KeyPress that asks these bits set, lists these names, and tests no other bit.
fn key_press(set: u16, names: u8, byte: u8) -> KeptEvent
    ensures { result ≡ key_press_of set names byte }
{
    let keysyms = no_keysyms();
    KeptEvent {
        code: 2,
        set,
        clear: 0,
        colon: false,
        clause: false,
        detail: Detail::Value(byte as u32),
        count: 1,
        bang: false,
        names,
        keysyms,
    }
}
