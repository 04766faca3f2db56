// The least and the greatest of two texts.
ghost use Rattle.std.specs.Prelude.{◌≡◌, option_copied};
ghost use Rattle.vx_dtype.specs.declared.CompareOperator.{CompareOperator};
ghost use Rattle.vx_texts.specs.Bounds.{first_text};

/// The lesser of two texts by their bytes; where one is null, the other.
pub(crate) fn lesser<'a>(left: Option<&'a str>, right: Option<&'a str>) -> Option<&'a str>
    ensures { option_copied result ≡ first_text CompareOperator.Lte (option_copied left.entry) (option_copied right.entry) }
{
    match (left, right) {
        (Some(a), Some(b)) => { if a <= b { Some(a) } else { Some(b) } }
        (None, _) => right,
        (_, None) => left,
    }
}

/// The greater of two texts by their bytes; where one is null, the other.
pub(crate) fn greater<'a>(left: Option<&'a str>, right: Option<&'a str>) -> Option<&'a str>
    ensures { option_copied result ≡ first_text CompareOperator.Gte (option_copied left.entry) (option_copied right.entry) }
{
    match (left, right) {
        (Some(a), Some(b)) => { if a >= b { Some(a) } else { Some(b) } }
        (None, _) => right,
        (_, None) => left,
    }
}
