// The modifier list of an event as a whole: what stands in it, and where its `<` is.
ghost use Rattle.std.specs.Prelude.{◌≡◌, ◌≤◌, length};
ghost use Rattle.model.specs.Lists.{bytes, same};
ghost use Rattle.model.specs.Events.{modifiers_at};
ghost use Rattle.list_scanner.specs.ModifierLists.{summed, list_from, list_end};

use crate::modifiers::modifier_at;
use model::scan::ModifierRead;
use scanner::bytes::byte_at;

// What the check of a list needs to know of its modifiers.
#[derive(Clone, Copy)]
pub enum ModifiersRead {
    Broken,
    Modifiers {
        count: usize,
        // Some modifier has `~`.
        tilde: bool,
        // `None` is among them.
        none: bool,
        // `None` or `Any` is among them.
        lone: bool,
        // Where the `<` stands.
        end: usize,
    },
}

#[derive(Clone, Copy)]
pub enum ListKind {
    // Perhaps `!` and `:`, and any number of modifiers.
    Listed,
    // `None`.
    NoModifier,
    // `Any`.
    AnyModifier,
}

#[derive(Clone, Copy)]
pub enum ListRead {
    Broken,
    List { kind: ListKind, end: usize },
}

pub fn is_none(w: &[u8]) -> bool
    ensures { result ≡ same w.now (bytes "None") }
{
    (w.len() == 4)
        & (byte_at(w, 0) == b'N')
        & (byte_at(w, 1) == b'o')
        & (byte_at(w, 2) == b'n')
        & (byte_at(w, 3) == b'e')
}

pub fn is_any(w: &[u8]) -> bool
    ensures { result ≡ same w.now (bytes "Any") }
{
    (w.len() == 3) & (byte_at(w, 0) == b'A') & (byte_at(w, 1) == b'n') & (byte_at(w, 2) == b'y')
}

// The modifiers from a position past `!` and `:`, to the `<`.
pub fn read_modifiers(l: &[u8], at: usize) -> ModifiersRead
    requires { at ≤ length l.now }
    ensures { result ≡ summed (modifiers_at l.now at) }
{
    let mut i = at;
    let mut count: usize = 0;
    let mut tilde = false;
    let mut none = false;
    let mut lone = false;
    loop {
        match modifier_at(l, i) {
            ModifierRead::Broken => return ModifiersRead::Broken,
            ModifierRead::End(end) => {
                return ModifiersRead::Modifiers {
                    count,
                    tilde,
                    none,
                    lone,
                    end,
                };
            }
            ModifierRead::Name {
                tilde: marked,
                start,
                end,
            } => {
                let word = &l[start..end];
                let as_none = is_none(word);
                let as_any = is_any(word);
                count += 1;
                tilde = tilde | marked;
                none = none | as_none;
                lone = lone | (as_none | as_any);
                i = end;
            }
            ModifierRead::Keysym {
                tilde: marked,
                start: _,
                end,
            } => {
                count += 1;
                tilde = tilde | marked;
                i = end;
            }
        }
    }
}

// `None` or `Any` stands alone: one modifier, and no `!`, `:` or `~` beside it.
pub fn list_end(
    bang: bool,
    colon: bool,
    count: usize,
    tilde: bool,
    none: bool,
    lone: bool,
    end: usize,
) -> ListRead
    ensures { result ≡ list_end bang colon count tilde none lone end }
{
    if !lone {
        return ListRead::List {
            kind: ListKind::Listed,
            end,
        };
    }
    if bang | colon | tilde {
        return ListRead::Broken;
    }
    if count != 1 {
        return ListRead::Broken;
    }
    if none {
        return ListRead::List {
            kind: ListKind::NoModifier,
            end,
        };
    }
    ListRead::List {
        kind: ListKind::AnyModifier,
        end,
    }
}

// The list whose modifiers begin at a position, with what leads it.
pub fn read_list(l: &[u8], bang: bool, colon: bool, at: usize) -> ListRead
    requires { at ≤ length l.now }
    ensures { result ≡ list_from bang colon (summed (modifiers_at l.now at)) }
{
    match read_modifiers(l, at) {
        ModifiersRead::Broken => ListRead::Broken,
        ModifiersRead::Modifiers {
            count,
            tilde,
            none,
            lone,
            end,
        } => list_end(bang, colon, count, tilde, none, lone, end),
    }
}
