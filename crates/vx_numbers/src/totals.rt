// Sums and differences of two numbers, as types, so that each has a loop of its own.
ghost use Rattle.std.specs.Prelude.{◌≡◌, ℤ, ◌+ℤ◌, ◌-ℤ◌, Some};
ghost use Rattle.std.specs.Option.{option_map};
ghost use Rattle.vx_numbers.specs.Numbers.{within, on_both, total_in};

use crate::width::Width;

/// A total of two numbers.
pub(crate) trait Total {
    ghost rule: { ℤ → ℤ → ℤ };

    /// The total, None exactly where it leaves the type.
    fn of<T: Width>(left: T, right: T) -> Option<T>
        ensures { option_map T.value result ≡ within T.ptype (rule (T.value left) (T.value right)) };
}

/// `+`
pub(crate) struct Sum;

/// `-`
pub(crate) struct Difference;

impl Total for Sum {
    ghost rule = { λ a b. a +ℤ b };

    #[inline(always)]
    fn of<T: Width>(left: T, right: T) -> Option<T> {
        left.plus(right)
    }
}

impl Total for Difference {
    ghost rule = { λ a b. a -ℤ b };

    #[inline(always)]
    fn of<T: Width>(left: T, right: T) -> Option<T> {
        left.minus(right)
    }
}

/// The total of two numbers, null where one is null. None exactly where it leaves the type.
pub(crate) fn total_of<T: Width, O: Total>(left: Option<T>, right: Option<T>) -> Option<Option<T>>
    ensures { option_map (option_map T.value) result
        ≡ total_in T.ptype (on_both O.rule (option_map T.value left) (option_map T.value right)) }
{
    match (left, right) {
        (Some(left), Some(right)) => known_total::<T, O>(left, right),
        _ => Some(None),
    }
}

/// The total of two numbers that are there. None exactly where it leaves the type.
fn known_total<T: Width, O: Total>(left: T, right: T) -> Option<Option<T>>
    ensures { option_map (option_map T.value) result ≡ total_in T.ptype (Some (O.rule (T.value left) (T.value right))) }
{
    match O::of(left, right) {
        Some(total) => Some(Some(total)),
        None => None,
    }
}
