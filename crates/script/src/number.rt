// Decimal numbers of any length. One that no machine word holds is taken as the nearest that the word holds.
ghost use Rattle.std.specs.Prelude.{◌≡◌, ℕ, min};
ghost use Rattle.std.specs.Option.{option_map};
ghost use Rattle.script.specs.Number.{number_in, price_in};

/// The number that digits write, or the most that is asked for, whichever is less; none unless there is a
/// digit and nothing else.
pub(crate) fn number_in(digits: &[u8], most: u64) -> Option<u64>
    ensures { result ≡ option_map (min most) (number_in digits.now) }
{
    if digits.is_empty() {
        return None;
    }
    let mut value: u64 = 0;
    for &digit in digits {
        if !digit.is_ascii_digit() {
            return None;
        }
        value = value
            .saturating_mul(10)
            .saturating_add(u64::from(digit - b'0'))
            .min(most);
    }
    Some(value)
}

/// A price, with or without a minus.
pub(crate) fn price_in(word: &str) -> Option<i64>
    ensures { result ≡ price_in word.now }
{
    match word.as_bytes() {
        [b'-', digits @ ..] => Some(0_i64.saturating_sub_unsigned(number_in(digits, u64::MAX)?)),
        digits => Some(0_i64.saturating_add_unsigned(number_in(digits, u64::MAX)?)),
    }
}
