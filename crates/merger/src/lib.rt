// The merge of two tables into lent bytes: judge first, read only, then clear and write.
#![tactic(auto)]

ghost use Rattle.std.specs.Prelude.{◌≡◌, false, not, ◌≤◌, length};
ghost use Rattle.model.specs.Numbers.{merge_order, merged_number};
ghost use Rattle.model.specs.Merging.{merge_passes_limit};
ghost use Rattle.tables.specs.Reading.{decode};
ghost use Rattle.tables.specs.Whole.{whole};
ghost use Rattle.merger.specs.Merge.{merge_number, merge_answer, merged_bytes};
ghost use Rattle.tables.specs.Layout.{table_length};

use model::answers::Merged;

// The number of the first check on the tables that applies, 0 where none does.
fn judged(old: &[u8], new: &[u8]) -> u8
    requires { (table_length ≤ length old.now) × (table_length ≤ length new.now) }
    ensures { result ≡ merge_order false false false (not (whole old.now)) (not (whole new.now)) (decode old.now).merged (decode new.now).merged (merge_passes_limit (decode old.now) (decode new.now)) }
{
    if !table_check::whole(old) {
        return 12;
    }
    if !table_check::whole(new) {
        return 12;
    }
    if tables::read::merged(old) {
        return 17;
    }
    if tables::read::merged(new) {
        return 17;
    }
    if tally::count::tally_passes(tally::count::tally_merged(old, new)) {
        return 11;
    }
    0
}

// Merges the new table into the old one by the new one's directive. Any bytes may be lent.
pub fn merge(old: &[u8], new: &[u8], out: &mut [u8]) -> Merged
    ensures answer { result ≡ merge_answer old.now new.now out.old }
    ensures number { merged_number result ≡ merge_number old.now new.now out.old }
    ensures bytes { out.new ≡ merged_bytes old.now new.now out.old }
{
    if old.len() < tables::TABLE_LENGTH {
        return Merged::Refused(1);
    }
    if new.len() < tables::TABLE_LENGTH {
        return Merged::Refused(1);
    }
    if out.len() < tables::TABLE_LENGTH {
        return Merged::Refused(1);
    }
    let number = judged(old, new);
    tables::write::clear(out);
    if number != 0 {
        return Merged::Refused(number);
    }
    copying::copy::put_merged(old, new, out);
    Merged::Accepted
}
