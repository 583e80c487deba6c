// The productions that a merge keeps, in their order, and what is done with each.
ghost use Rattle.std.specs.Prelude.{◌≡◌, ℕ, Bool, true, List, ◌≤◌, ◌<◌, length};
ghost use Rattle.model.specs.Tables.{Production};
ghost use Rattle.tables.specs.Reading.{production_total, production_entry, directive_in};
ghost use Rattle.tables.specs.Whole.{whole};
ghost use Rattle.tally.specs.declared.count.Tally.{Tally};
ghost use Rattle.tally.specs.Kept.{each_marked, kept_from, kept_by};
ghost use Rattle.tally.specs.Counting.{no_tally, tally_one, tally_all, tally_merged, put_kept};

use crate::compare::is_among;
use crate::count::Tally;
use model::events::Directive;

// What a merge does with each production that it keeps.
pub trait Step {
    // the bytes with it put after as many as the tally counts
    ghost put: { Bool → List ℕ → Tally → Production → List ℕ };

    // there is room for so many in bytes of that length
    ghost Fits: { ℕ → Tally → Type 0 };

    // Production p, its calls marked as the first text's or the second's. The answer counts it.
    fn step(l: &[u8], p: usize, second: bool, out: &mut [u8], t: Tally) -> Tally
        requires { (whole l.now ≡ true) × (p < production_total l.now) × Fits (length out.old) (tally_one t (production_entry l.now p)) }
        ensures { (result ≡ tally_one t (production_entry l.now p)) × (out.new ≡ put second out.old t (production_entry l.now p)) };

    ghost fewer: { (n : ℕ) (t : Tally) (p : Production) → Fits n (tally_one t p) → Fits n t };
}

// The productions of `l` whose events equal none of the first n of `other`, after others.
pub fn take_kept<S: Step>(
    l: &[u8],
    other: &[u8],
    n: usize,
    second: bool,
    out: &mut [u8],
    before: Tally,
) -> Tally
    requires { (whole l.now ≡ true) × ((whole other.now ≡ true) × (n ≤ production_total other.now)) × S.Fits (length out.old) (tally_all before (kept_from l.now 0 other.now n)) }
    ensures { (result ≡ tally_all before (kept_from l.now 0 other.now n)) × (out.new ≡ put_kept S.put out.old before (each_marked second (kept_from l.now 0 other.now n))) }
{
    let mut t = before;
    for p in 0..tables::read::production_count(l) {
        if !is_among(l, p, other, n) {
            t = S::step(l, p, second, out, t);
        }
    }
    t
}

// The productions of a merge, by the new table's directive.
pub fn take_merged<S: Step>(old: &[u8], new: &[u8], out: &mut [u8]) -> Tally
    requires { (whole old.now ≡ true) × (whole new.now ≡ true) × S.Fits (length out.old) (tally_merged old.now new.now) }
    ensures { (result ≡ tally_merged old.now new.now) × (out.new ≡ put_kept S.put out.old no_tally (kept_by (directive_in new.now) old.now new.now)) }
{
    let none = Tally::default();
    match tables::read::directive(new) {
        Directive::Replace => take_kept::<S>(new, old, 0, true, out, none),
        Directive::Override => {
            let t = take_kept::<S>(new, old, 0, true, out, none);
            let n = tables::read::production_count(new);
            take_kept::<S>(old, new, n, false, out, t)
        }
        Directive::Augment => {
            let t = take_kept::<S>(old, new, 0, false, out, none);
            let n = tables::read::production_count(old);
            take_kept::<S>(new, old, n, true, out, t)
        }
    }
}
