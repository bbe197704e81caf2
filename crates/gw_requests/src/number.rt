//! Numbers in decimal digits.
ghost use Rattle.std.specs.Prelude.{◌≡◌, ◌<◌, IfSome};
ghost use Rattle.gw_requests.specs.Numbers as numbers;

use gw_text::is_decimal;

/// The number that the word writes in decimal digits without a leading zero, where it is less than the count.
#[tactic(auto, using(crate::proofs::Numbers::number_read), unfolding(crate::specs::Numbers::number_below))]
pub fn number_below(count: usize, word: &str) -> Option<usize>
    ensures number { result ≡ numbers.number_below count word.now }
    ensures below { IfSome result (λ n. n < count) }
{
    if !is_decimal(word.as_bytes()) {
        return None;
    }
    match word.parse::<usize>() {
        Ok(number) if number < count => Some(number),
        _ => None,
    }
}
