// Equality of productions: their events as kept, before expansion.
ghost use Rattle.std.specs.Prelude.{◌≡◌, true, ◌+◌, ◌≤◌, ◌<◌, length};
ghost use Rattle.words.specs.Runs.{run};
ghost use Rattle.model.specs.Merging.{same_events, is_among};
ghost use Rattle.tables.specs.Reading.{production_total, event_entry, production_entry};
ghost use Rattle.tables.specs.Whole.{whole};
ghost use Rattle.tally.specs.Kept.{first_of};
ghost use Rattle.tables.specs.Layout.{table_length};

// Whether n events of a table, from one on, equal m of another.
fn same_lists(l: &[u8], a: usize, n: usize, other: &[u8], b: usize, m: usize) -> bool
    requires { ((table_length ≤ length l.now) × (a + n ≤ 256)) × ((table_length ≤ length other.now) × (b + m ≤ 256)) }
    ensures { result ≡ same_events (run (event_entry l.now) a n) (run (event_entry other.now) b m) }
{
    n == m
        && (0..n).all(|i| {
            let e = tables::read::event_at(l, a + i);
            let f = tables::read::event_at(other, b + i);
            e == f
        })
}

// Whether some of the first n productions of `other` have the events of production p of `l`.
pub fn is_among(l: &[u8], p: usize, other: &[u8], n: usize) -> bool
    requires { ((whole l.now ≡ true) × (p < production_total l.now)) × ((whole other.now ≡ true) × (n ≤ production_total other.now)) }
    ensures { result ≡ is_among (first_of other.now n) (production_entry l.now p) }
{
    let a = tables::read::events_from(l, p);
    let k = tables::read::production_events(l, p);
    let mut b: usize = 0;
    for q in 0..n {
        let m = tables::read::production_events(other, q);
        if same_lists(l, a, k, other, b, m) {
            return true;
        }
        b += m;
    }
    false
}
