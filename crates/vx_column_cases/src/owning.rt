// Values that are owned together. What a function owns is dropped at each of its ends, each part of it for itself: so these ends are here, once
// for all types.

/// Two values, where both were made.
pub(crate) fn both<T: Drop, U: Drop, E: Drop>(
    one: Result<T, E>,
    other: Result<U, E>,
) -> Result<(T, U), E> {
    match one {
        Ok(one) => beside(one, other),
        Err(error) => Err(error),
    }
}

/// A value, and another one where that was made.
pub(crate) fn beside<T: Drop, U, E>(one: T, other: Result<U, E>) -> Result<(T, U), E> {
    match other {
        Ok(other) => Ok((one, other)),
        Err(error) => Err(error),
    }
}
