// Places in a text.
ghost use Rattle.std.specs.Prelude.{◌≡◌};
ghost use Rattle.check_table.specs.Places.{line_number};

// The number of the line that the byte at a place stands in. A text is a slice, so it is not as long as the numbers go.
// Counted by a loop, which is compiled to vector instructions; `filter(..).count()` is not, and took up to 2.6 times as many.
#[tactic(auto, using(std::proofs::lemmas::List::take_min, std::proofs::lemmas::List::Sums::count_by_more_yes, std::proofs::lemmas::List::Sums::count_by_more_no), unfolding(crate::specs::Places::line_number))]
pub fn line_at(text: &[u8], place: usize) -> u64
    ensures { result ≡ line_number text.now place }
{
    let mut line = 1;
    for &b in &text[..place.min(text.len())] {
        line += u64::from(b == b'\n');
    }
    line
}
