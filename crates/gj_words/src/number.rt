//! Numbers of commands.

ghost use Rattle.std.specs.Prelude.{◌≡◌, ◌≤◌, ◌<◌, ◌^◌, ◌↔◌, ℕ, decimal, slice_index, IfSome};
ghost use Rattle.std.specs.Prelude.{IsTrue};

/// The number that the word spells in digits, without a leading zero unless the word is `0`.
///
/// None if it spells none below 2^32.
pub(crate) fn number_of(word: &str) -> Option<u32>
    ensures found { IfSome result (λ n. word.now ≡ decimal n) }
    ensures only { (n : ℕ) → n < 2 ^ 32 → word.now ≡ decimal n → result ≡ Some n }
{
    if word == "0" {
        return Some(0);
    }
    if !begins_above_zero(word.as_bytes()) {
        return None;
    }
    word.parse::<u32>().ok()
}

/// Whether the first byte is a digit above `0`.
fn begins_above_zero(word: &[u8]) -> bool
    ensures { IsTrue result ↔ ((49 ≤ slice_index word.now 0) × (slice_index word.now 0 ≤ 57)) }
{
    matches!(word, [b'1'..=b'9', ..])
}
