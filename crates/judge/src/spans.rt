// An event from the parts of its line.
ghost use Rattle.std.specs.Prelude.{◌≡◌, [], ◌≤◌, length};
ghost use Rattle.model.specs.Events.{listed, modifiers_at};
ghost use Rattle.model.specs.Names.{type_named};
ghost use Rattle.model.specs.Numbers.{judged_number};
ghost use Rattle.model.specs.Judging.{typed_number, judged_written};
ghost use Rattle.list_scanner.specs.ModifierLists.{modifiers_in};
ghost use Rattle.event_scanner.specs.Spans.{list_in, count_in};
ghost use Rattle.list_masks.specs.Summary.{summary_of};
ghost use Rattle.judge.specs.Judged.{count_summary};
ghost use Rattle.judge.specs.Spans.{lone_list_of, written_in, CountSpanIn, SpansIn};

use crate::events::{CountSummary, count_of, detail_of, judge_parts};
use event_scanner::events::{CountSpan, EventSpans, ListSpans};
use keysym_list::no_keysyms;
use list_masks::lists::{ListSummary, with_keysym, with_name};
use list_scanner::lists::ListKind;
use list_scanner::modifiers::modifier_at;
use lookup::details::key_detail;
use model::answers::Judged;
use model::names::TypeName;
use model::scan::ModifierRead;

// A list with `!` or `:` and no modifier yet.
pub fn led(bang: bool, colon: bool) -> ListSummary
    ensures { result ≡ summary_of (listed bang colon []) }
{
    let keysyms = no_keysyms();
    ListSummary {
        written: bang | colon,
        others_clear: bang,
        colon,
        unknown: false,
        too_large: false,
        set: 0,
        clear: 0,
        names: 0,
        keysyms,
        over: false,
    }
}

// `None`, which asks every bit to be clear, or `Any`.
pub fn alone(none: bool) -> ListSummary
    ensures { result ≡ summary_of (lone_list_of none) }
{
    let keysyms = no_keysyms();
    ListSummary {
        written: true,
        others_clear: none,
        colon: false,
        unknown: false,
        too_large: false,
        set: 0,
        clear: 0,
        names: 0,
        keysyms,
        over: false,
    }
}

// The list whose modifiers begin at a position, of none where they are not in the grammar.
pub fn modifiers_from(l: &[u8], bang: bool, colon: bool, at: usize) -> ListSummary
    requires { at ≤ length l.now }
    ensures { result ≡ summary_of (listed bang colon (modifiers_in (modifiers_at l.now at))) }
{
    let mut s = led(bang, colon);
    let mut i = at;
    loop {
        match modifier_at(l, i) {
            ModifierRead::Broken => return led(bang, colon),
            ModifierRead::End(_) => return s,
            ModifierRead::Name { tilde, start, end } => {
                let name = lookup::modifier_named(&l[start..end]);
                s = with_name(s, tilde, name);
                i = end;
            }
            ModifierRead::Keysym { tilde, start, end } => {
                let read = key_detail(&l[start..end]);
                s = with_keysym(s, tilde, read);
                i = end;
            }
        }
    }
}

pub fn list_of(l: &[u8], list: ListSpans) -> ListSummary
    requires { list.start ≤ length l.now }
    ensures { result ≡ summary_of (list_in l.now list) }
{
    let kind = list.kind;
    match kind {
        ListKind::Listed => modifiers_from(l, list.bang, list.colon, list.start),
        ListKind::NoModifier => alone(true),
        ListKind::AnyModifier => alone(false),
    }
}

pub fn count_at(l: &[u8], code: u8, count: CountSpan) -> CountSummary
    requires { CountSpanIn (length l.now) count }
    ensures { result ≡ count_summary code (count_in l.now count) }
{
    match count {
        CountSpan::Absent => CountSummary {
            bad: false,
            unbuilt: false,
            value: 1,
        },
        CountSpan::Digits { start, end, plus } => count_of(code, true, plus, &l[start..end]),
    }
}

// An event as the scanner hands it over.
pub fn judge_event(l: &[u8], e: EventSpans) -> Judged
    requires { SpansIn (length l.now) e }
    ensures answer { result ≡ judged_written (written_in l.now e) }
    ensures number { judged_number result ≡ typed_number (written_in l.now e) (type_named (written_in l.now e).type_name) }
{
    let name = e.name;
    let list = e.list;
    let count = e.count;
    let detail = e.detail;
    let start = name.start;
    let end = name.end;
    match lookup::type_named(&l[start..end]) {
        TypeName::Unknown => Judged::Refuse(5),
        TypeName::Known(ty) => {
            let s = list_of(l, list);
            let c = count_at(l, ty.code, count);
            let from = detail.start;
            let to = detail.end;
            let d = detail_of(ty, &l[from..to]);
            judge_parts(ty, s, c, d)
        }
    }
}
