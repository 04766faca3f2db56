// The least and the greatest of the values of a lane.
ghost use Rattle.std.specs.Prelude.{◌≡◌, ◌≤◌, ◌*◌, Some, length, map};
ghost use Rattle.std.specs.Option.{option_map};
ghost use Rattle.vx_numbers.specs.Bounds.{first_number, least_number, greatest_number};
ghost use Rattle.vx_numbers.specs.Lanes.{numbers_of};

use crate::operators::{AtLeast, AtMost, Operator};
use crate::width::Width;
use vx_words::bit;

/// The least and the greatest of values none of which is null; none where there are no values.
pub(crate) fn value_bounds<T: Width>(values: &[T]) -> (Option<T>, Option<T>)
    ensures least { option_map T.value result.0 ≡ least_number (map (λ x. Some (T.value x)) values.now) }
    ensures greatest { option_map T.value result.1 ≡ greatest_number (map (λ x. Some (T.value x)) values.now) }
{
    if values.len() == 0 {
        return (None, None);
    }
    let mut least = values[0];
    let mut greatest = values[0];
    'values: for i in 1..values.len() {
        let value = values[i];
        least = first::<T, AtMost>(least, value);
        greatest = first::<T, AtLeast>(greatest, value);
    }
    (Some(least), Some(greatest))
}

/// The least and the greatest of the values whose bit is set; none where there are no such values.
pub(crate) fn known_bounds<T: Width>(valid: &[u64], values: &[T]) -> (Option<T>, Option<T>)
    requires { length values.now ≤ 64 * length valid.now }
    ensures least { option_map T.value result.0 ≡ least_number (numbers_of valid.now (map T.value values.now)) }
    ensures greatest { option_map T.value result.1 ≡ greatest_number (numbers_of valid.now (map T.value values.now)) }
{
    let mut least = None;
    let mut greatest = None;
    'places: for i in 0..values.len() {
        if bit(valid, i) {
            let value = values[i];
            least = first_known::<T, AtMost>(least, value);
            greatest = first_known::<T, AtLeast>(greatest, value);
        }
    }
    (least, greatest)
}

/// The one of two numbers that stands so to the other.
#[inline(always)]
fn first<T: Width, O: Operator>(left: T, right: T) -> T
    ensures { Some (T.value result) ≡ first_number O.operator (Some (T.value left)) (Some (T.value right)) }
{
    if O::holds(left, right) {
        return left;
    }
    right
}

/// The one of two numbers that stands so to the other; the second where the first is null.
#[inline(always)]
fn first_known<T: Width, O: Operator>(left: Option<T>, right: T) -> Option<T>
    ensures { option_map T.value result ≡ first_number O.operator (option_map T.value left) (Some (T.value right)) }
{
    match left {
        Some(left) => Some(first::<T, O>(left, right)),
        None => Some(right),
    }
}
