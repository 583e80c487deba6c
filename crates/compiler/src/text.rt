// The lines of a text.
ghost use Rattle.std.specs.Prelude.{◌≡◌, ◌≤◌, length};
ghost use Rattle.words.specs.Words.{cleared};
ghost use Rattle.model.specs.Compiling.{lines_of, outcome_answer};
ghost use Rattle.model.specs.declared.answers.Compiled.{Compiled};
ghost use Rattle.lines.specs.Totals.{TotalsIn};
ghost use Rattle.tables.specs.Layout.{table_length};
ghost use Rattle.compiler.specs.WholeLine.{put_header};
ghost use Rattle.compiler.specs.Compile.{image_of};

use crate::line::{LineDone, Progress, do_line};
use lines::totals::no_totals;
use model::answers::Compiled;
use model::events::Directive;
use scanner::lines::line_end;
use tables::TABLE_LENGTH;
use tables::write::{put_counts, put_texts};

// A refusal leaves the empty table.
pub fn refuse(table: &mut [u8], number: u8, place: usize) -> Compiled
    requires { table_length ≤ length table.old }
    ensures { (result ≡ Compiled.Refused number place) × (table.new ≡ cleared table_length table.old) }
{
    words::clear(table, TABLE_LENGTH);
    Compiled::Refused { number, place }
}

// The header of a table of one text.
pub fn write_header(out: &mut [u8], s: Progress, text: usize)
    requires { ((table_length ≤ length out.old) × (text ≤ 8192)) × TotalsIn s.totals }
    ensures { out.new ≡ put_header out.old s.directive s.totals text }
{
    let t = s.totals;
    let d = s.directive;
    put_texts(out, d, false, text, 0);
    put_counts(out, t.productions, t.events, t.calls, t.parameters);
}

// Line by line. The header is written after the last line.
pub fn compile_lines(text: &[u8], out: &mut [u8]) -> Compiled
    requires { (length out.old ≡ table_length) × (length text.now ≤ 8192) }
    ensures { (result ≡ outcome_answer (lines_of text.now)) × (out.new ≡ image_of (lines_of text.now)) }
{
    words::clear(out, TABLE_LENGTH);
    let totals = no_totals();
    let mut s = Progress {
        directive: Directive::Replace,
        totals,
    };
    let mut at: usize = 0;
    loop {
        let end = line_end(text, at);
        match do_line(text, at, end, out, s) {
            LineDone::Refused(number) => return refuse(out, number, at),
            LineDone::Done(next) => {
                if text.len() <= end {
                    write_header(out, next, text.len());
                    return Compiled::Accepted;
                }
                s = next;
                at = end + 1;
            }
        }
    }
}
