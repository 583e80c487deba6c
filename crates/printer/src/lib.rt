// The canonical text of a table, written into lent bytes.
#![tactic(auto, using(table_check::proofs::WholeFacts::facts_of_whole))]

mod productions;

ghost use Rattle.std.specs.Prelude.{◌≡◌, ◌≤◌, length};
ghost use Rattle.model.specs.Numbers.{written_number, written_length};
ghost use Rattle.printer.specs.Write.{text_written, write_number, write_length, written, written_bytes};

use call_text::Lent;
use model::answers::Written;
use tables::read;

// The length of the text: what writing it into one byte returns.
fn text_length(lent: &Lent) -> usize
    ensures { (result ≡ length (text_written lent.now.table.now lent.now.first.now lent.now.second.now)) × (result ≤ 377600000) }
{
    productions::put_productions(&mut [0], lent)
}

// Writes the canonical text of a table over its texts at the start of the output. Its length is at most 64 times 5,900,000,
// a bound for one production, so that a caller may count with it.
#[tactic(auto, unfolding(crate::specs::Write::written, crate::specs::Write::written_bytes, crate::specs::Write::write_length, crate::specs::Write::write_number, crate::specs::Write::write_not_whole, tables::specs::Reading::decode))]
pub fn write(table: &[u8], first: &[u8], second: &[u8], out: &mut [u8]) -> Written
    ensures answer { result ≡ written table.now first.now second.now out.old }
    ensures bytes { out.new ≡ written_bytes table.now first.now second.now out.old }
    ensures number { written_number result ≡ write_number table.now first.now second.now out.old }
    ensures length { written_length result ≡ write_length table.now first.now second.now out.old }
    ensures bounded { written_length result ≤ 377600000 }
{
    if table.len() < tables::TABLE_LENGTH {
        return Written::Refused(1);
    }
    if !table_check::whole(table)
        || first.len() < read::first_length(table)
        || second.len() < read::second_length(table)
    {
        return Written::Refused(12);
    }
    let lent = Lent {
        table,
        first,
        second,
    };
    let n = text_length(&lent);
    if out.len() < n {
        return Written::Refused(1);
    }
    productions::put_productions(out, &lent);
    Written::Accepted(n)
}
