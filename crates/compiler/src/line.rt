// One line of a text: its events and calls are written as they are read, and its production once the whole line is judged.
ghost use Rattle.std.specs.Prelude.{◌≡◌, false, List, ℕ, ◌+◌, ◌≤◌, length};
ghost use Rattle.model.specs.Tables.{Production};
ghost use Rattle.model.specs.Compiling.{passes_limit, line_outcome};
ghost use Rattle.model.specs.Lines.{line_end, line_at, directive_at};
ghost use Rattle.lookup.specs.Find.{directive_given};
ghost use Rattle.lines.specs.Totals.{totals_of, TotalsIn};
ghost use Rattle.lines.specs.Line.{calls_start, judged_of};
ghost use Rattle.compiler.specs.WholeLine.{AddedPut};
ghost use Rattle.compiler.specs.Progress.{Underway, plain_step, line_step, step_done, StepHeld};
ghost use Rattle.tables.specs.Layout.{table_length};

use line_writer::calls::write_right;
use line_writer::events::{LeftWritten, write_left};
use lines::left::LeftJudged;
use lines::line::{LineJudged, judge_right, judge_sides};
use lines::totals::{Totals, with_line};
use lookup::FirstLine;
use model::events::Directive;
use scanner::lines::is_blank_line;
use tables::write::put_production;

// What the lines so far came to.
#[derive(Clone, Copy)]
pub struct Progress {
    pub directive: Directive,
    pub totals: Totals,
}

// What one more line came to.
#[derive(Clone, Copy)]
pub enum LineDone {
    Refused(u8),
    Done(Progress),
}

// The directive that a line is: only the line from byte 0 can be one.
pub fn directive_at(text: &[u8], at: usize, end: usize) -> FirstLine
    requires { (at ≤ length text.now) × (end ≡ line_end text.now at) }
    ensures { directive_given result ≡ directive_at text.now at }
{
    if at == 0 {
        return lookup::directive_of(&text[at..end]);
    }
    FirstLine::Absent
}

// A line that is not blank: its events and calls are written as they are read, after productions with these totals.
pub fn judge_line(l: &[u8], base: usize, out: &mut [u8], t: Totals) -> LineJudged
    requires { ((base + length l.now ≤ 8192) × (table_length ≤ length out.old)) × TotalsIn t }
    ensures { ((ps : List Production) (at : ℕ) → t ≡ totals_of ps → passes_limit ps ≡ false →
        result ≡ judged_of (calls_start l.now) (line_outcome ps at l.now))
        × AddedPut base l.now t out.old out.new result }
{
    match write_left(l, out, t.events) {
        LeftWritten::Broken => LineJudged::Refuse(4),
        LeftWritten::Refuse(n) => judge_sides(l, t, LeftJudged::Refuse(n)),
        LeftWritten::Read { left, next } => {
            let right = write_right(l, next, base, out, t.calls, t.parameters);
            judge_right(t, left, next, right)
        }
    }
}

// A line that is no directive.
pub fn add_line(l: &[u8], base: usize, out: &mut [u8], s: Progress) -> LineDone
    requires { (base + length l.now ≤ 8192) × Underway s.totals out.old }
    ensures { (u : Underway s.totals out.old) →
        (result ≡ step_done (plain_step s.directive u.ps base l.now))
        × StepHeld (plain_step s.directive u.ps base l.now) u.rest out.new }
{
    if is_blank_line(l) {
        return LineDone::Done(s);
    }
    let totals = s.totals;
    let directive = s.directive;
    match judge_line(l, base, out, totals) {
        LineJudged::Refuse(n) => LineDone::Refused(n),
        LineJudged::Add(line) => {
            put_production(out, totals.productions, line.events, line.calls);
            let more = with_line(totals, line);
            LineDone::Done(Progress {
                directive,
                totals: more,
            })
        }
    }
}

// The line from a position up to its end.
pub fn do_line(text: &[u8], at: usize, end: usize, out: &mut [u8], s: Progress) -> LineDone
    requires { ((at ≤ length text.now) × (length text.now ≤ 8192) × (end ≡ line_end text.now at)) × Underway s.totals out.old }
    ensures { (u : Underway s.totals out.old) →
        (result ≡ step_done (line_step (directive_at text.now at) s.directive u.ps at (line_at text.now at)))
        × StepHeld (line_step (directive_at text.now at) s.directive u.ps at (line_at text.now at)) u.rest out.new }
{
    match directive_at(text, at, end) {
        FirstLine::Found(directive) => {
            let totals = s.totals;
            LineDone::Done(Progress { directive, totals })
        }
        FirstLine::Absent => add_line(&text[at..end], at, out, s),
    }
}
