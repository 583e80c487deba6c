// What a written modifier list asks, as one value, and the masks that an event keeps of it.
ghost use Rattle.std.specs.Prelude.{◌≡◌, ◌<◌};
ghost use Rattle.model.specs.Named.{form_bit};
ghost use Rattle.model.specs.declared.names.Added.{Added};
ghost use Rattle.model.specs.declared.names.DetailRead.{DetailRead};
ghost use Rattle.model.specs.declared.names.ModifierName.{ModifierName};
ghost use Rattle.list_masks.specs.Summary.{with_form, with_name, with_keysym_read, set_of, clear_of, clause_of, forms_of, SummaryIn, NameIn, KeysymReadIn, AddedIn};

use keysym_list::with_one_more;
use model::events::Keysyms;
use model::names::{Added, DetailRead, ModifierName};

// A modifier list: what is written, and what it lists without `~` and with it.
#[derive(Clone, Copy)]
pub struct ListSummary {
    // Something is written before `<`.
    pub written: bool,
    // `!` or `None`.
    pub others_clear: bool,
    pub colon: bool,
    // Some name or some run after `@` is unknown; some number after `@` is out of range.
    pub unknown: bool,
    pub too_large: bool,
    pub set: u16,
    pub clear: u16,
    // Meta, Alt, Hyper and Super: bits 0..3, with `~` bits 4..7.
    pub names: u8,
    // The first four keysyms after `@`, and whether there are more.
    pub keysyms: Keysyms,
    pub over: bool,
}

// Eight bits of names with one more.
fn with_form(names: u8, k: u8) -> u8
    requires { k < 8 }
    ensures { result ≡ with_form names k }
{
    modifiers::with_bit(names as u16, k) as u8
}

fn form_bit(tilde: bool, n: u8) -> u8
    requires { n < 4 }
    ensures { result ≡ form_bit tilde n }
{
    if tilde { n + 4 } else { n }
}

// The list with one more modifier, a name.
pub fn with_name(s: ListSummary, tilde: bool, name: ModifierName) -> ListSummary
    requires { SummaryIn s × NameIn name }
    ensures { result ≡ with_name s tilde name }
{
    let mut t = s;
    t.written = true;
    match name {
        ModifierName::Unknown => {
            t.unknown = true;
            t
        }
        ModifierName::Named(n) => {
            t.names = with_form(s.names, form_bit(tilde, n));
            t
        }
        ModifierName::Bit(k) => {
            if tilde {
                t.clear = modifiers::with_bit(s.clear, k);
                return t;
            }
            t.set = modifiers::with_bit(s.set, k);
            t
        }
    }
}

// The list with one more modifier, `@` with a run that reads so.
pub fn with_keysym(s: ListSummary, tilde: bool, read: DetailRead) -> ListSummary
    requires { SummaryIn s × KeysymReadIn read }
    ensures { result ≡ with_keysym_read s tilde read }
{
    let mut t = s;
    t.written = true;
    match read {
        DetailRead::Unknown => {
            t.unknown = true;
            t
        }
        DetailRead::TooLarge => {
            t.too_large = true;
            t
        }
        DetailRead::NotBuilt => t,
        DetailRead::Value(v) => {
            let keysyms = s.keysyms;
            let slots = with_one_more(keysyms, s.over, tilde, v);
            let more = slots.keysyms;
            t.keysyms = more;
            t.over = slots.over;
            t
        }
    }
}

// The bits asked set: those listed, and the one that the type's name adds.
pub fn set_of(set: u16, added: Added) -> u16
    requires { (set < 8192) × AddedIn added }
    ensures { result ≡ set_of set added }
{
    match added {
        Added::Nothing => set,
        Added::Modifier(k) => modifiers::with_bit(set, k),
        Added::AnyButton => set,
        Added::Meta => set,
    }
}

// The bits asked clear: those listed with `~` and, after `!` or `None`, every unlisted one that is tested.
pub fn clear_of(s: ListSummary) -> u16
    requires { SummaryIn s }
    ensures { result ≡ clear_of s }
{
    let set = s.set;
    let clear = s.clear;
    if !s.others_clear {
        return clear;
    }
    let unlisted = 8191 - (set | clear);
    if s.colon {
        return clear | (unlisted & 8188);
    }
    clear | unlisted
}

// Whether the button clause is kept, with these bits asked set.
pub fn clause_of(added: Added, set: u16) -> bool
    requires { set < 8192 }
    ensures { result ≡ clause_of added set }
{
    match added {
        Added::Nothing => false,
        Added::Modifier(_) => false,
        Added::AnyButton => set < 256,
        Added::Meta => false,
    }
}

// The names of an event: those listed, and Meta where the type's name adds it.
pub fn forms_of(names: u8, added: Added) -> u8
    ensures { result ≡ forms_of names added }
{
    match added {
        Added::Nothing => names,
        Added::Modifier(_) => names,
        Added::AnyButton => names,
        Added::Meta => with_form(names, 0),
    }
}
