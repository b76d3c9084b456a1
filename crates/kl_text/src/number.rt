// The numbers of words.
ghost use Rattle.std.specs.Prelude.{ℕ, ◌≡◌, ◌<◌, ◌^◌, decimal, Some, IfSome};
ghost use Rattle.kl_text.specs.Numbers.{number_of};

use itoa::Buffer;

/// The number of a word: decimal, without leading zeros and below 2^32.
#[tactic(auto, unfolding(crate::specs::Numbers::number_of))]
pub fn number_of(word: &[u8]) -> Option<u32>
    ensures number { result ≡ number_of word.now }
    ensures spelled { IfSome result (λ n. word.now ≡ decimal n) }
    ensures whole { (n : ℕ) → n < 2 ^ 32 → decimal n ≡ word.now → result ≡ Some n }
{
    let number = parsed(word)?;
    if Buffer::new().format(number).as_bytes() == word {
        Some(number)
    } else {
        None
    }
}

/// What the word's digits say: of a number as it is printed, that number.
fn parsed(word: &[u8]) -> Option<u32>
    ensures { (n : ℕ) → n < 2 ^ 32 → decimal n ≡ word.now → result ≡ Some n }
{
    match str::from_utf8(word) {
        Ok(digits) => digits.parse().ok(),
        Err(_) => None,
    }
}
