// The numbers that digits say.
ghost use Rattle.std.specs.Prelude.{◌≡◌, ◌<◌, ◌^◌, ◌≤◌, IfSome};
ghost use Rattle.vx_tokens.specs.Numbers.{digits_behind, number_value, signed, integer_of};

/// The number of decimal digits behind another one, and None from 2^64 on.
#[tactic(auto, unfolding(crate::specs::Numbers::digits_behind))]
fn digits_behind(n: u64, digits: &[u8]) -> Option<u64>
    ensures { result ≡ digits_behind n digits.now }
{
    let [first, rest @ ..] = digits else {
        return Some(n);
    };
    let digit = first.saturating_sub(48) as u128;
    let more = 10 * n as u128 + digit;
    if more < 1 << 64 {
        digits_behind(more as u64, rest)
    } else {
        None
    }
}

/// The number, with a minus sign before it or without.
fn signed(negative: bool, n: u64) -> i128
    ensures { result ≡ signed negative n }
{
    let number = n as i128;
    if negative { -number } else { number }
}

/// The number of these digits, and None from 2^64 on.
pub fn integer_of(negative: bool, digits: &str) -> Option<i128>
    ensures { result ≡ integer_of negative digits.now }
{
    let number = digits_behind(0, digits.as_bytes())?;
    Some(signed(negative, number))
}
