// The whole number that a cell is.
ghost use Rattle.std.specs.Prelude.{◌≡◌};
ghost use Rattle.std.specs.List.{list_all};
ghost use Rattle.vx_tokens.specs.Tokens.{is_digit, is_number};
ghost use Rattle.vx_tokens.specs.Numbers.{digits_behind, integer_of, signed};
ghost use Rattle.vx_laws_csv.specs.Cells as spec;

/// Whether a byte is a decimal digit.
fn is_digit(byte: u8) -> bool
    ensures { result ≡ is_digit byte }
{
    47 < byte && byte < 58
}

/// Whether each byte is a decimal digit.
fn are_digits(digits: &[u8]) -> bool
    ensures { result ≡ list_all is_digit digits.now }
{
    for digit in digits {
        if !is_digit(*digit) {
            return false;
        }
    }
    true
}

/// Whether digits begin as a number does: there is one, and no 0 before others.
fn is_number(digits: &[u8]) -> bool
    ensures { result ≡ is_number digits.now }
{
    match digits {
        [] => false,
        [_] => true,
        [first, _, ..] => *first != 48,
    }
}

/// Whether bytes are a number as it is written.
fn is_written_number(digits: &[u8]) -> bool
    ensures { result ≡ spec.is_written_number digits.now }
{
    is_number(digits) && are_digits(digits)
}

/// The number of decimal digits behind another one, and None from 2^64 on.
#[tactic(auto, unfolding(vx_tokens::specs::Numbers::digits_behind))]
fn digits_behind(n: u64, digits: &[u8]) -> Option<u64>
    ensures { result ≡ digits_behind n digits.now }
{
    let [first, rest @ ..] = digits else {
        return Some(n);
    };
    let digit = first.saturating_sub(48) as u128;
    let more = 10 * n as u128 + digit;
    if more < 1 << 64 {
        digits_behind(more as u64, rest)
    } else {
        None
    }
}

/// The number, with a minus sign before it or without.
fn signed(negative: bool, n: u64) -> i128
    ensures { result ≡ signed negative n }
{
    let number = n as i128;
    if negative { -number } else { number }
}

/// The number of digits, and None from 2^64 on.
fn integer_of(negative: bool, digits: &[u8]) -> Option<i128>
    ensures { result ≡ integer_of negative digits.now }
{
    let number = digits_behind(0, digits)?;
    Some(signed(negative, number))
}

/// The number of digits as they are written, and None from 2^64 on.
fn written_number(negative: bool, digits: &[u8]) -> Option<i128>
    ensures { result ≡ spec.written_number negative digits.now }
{
    if is_written_number(digits) {
        integer_of(negative, digits)
    } else {
        None
    }
}

/// The number behind a minus, which isn't 0.
fn negative_number(digits: &[u8]) -> Option<i128>
    ensures { result ≡ spec.negative_number digits.now }
{
    let [first, ..] = digits else {
        return None;
    };
    if *first == 48 {
        return None;
    }
    written_number(true, digits)
}

/// The whole number that a cell is.
pub(crate) fn whole_number(cell: &[u8]) -> Option<i128>
    ensures { result ≡ spec.whole_number cell.now }
{
    let [first, rest @ ..] = cell else {
        return None;
    };
    if *first == 45 {
        return negative_number(rest);
    }
    written_number(false, cell)
}
