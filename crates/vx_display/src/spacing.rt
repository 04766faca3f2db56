// Texts in a line, with a space between any two.
ghost use Rattle.std.specs.Prelude.{◌≡◌, ◌++◌, codes, map, IfOk};
ghost use Rattle.std.specs.List.{flat_map};
ghost use Rattle.std.specs.String.{string_bytes};
ghost use Rattle.vx_display.specs.Spaced.{spaced};

use std::alloc::Global;
use vx_dtype::Mem;

/// Texts with a space between any two, or `-` where there are none.
pub fn spaced(alloc: Global, texts: &[String]) -> Mem<String>
    ensures { IfOk result (λ text. string_bytes text ≡ spaced (map string_bytes texts.now)) }
{
    match texts {
        [] => Ok(String::from_str(alloc, "-")?),
        [first, others @ ..] => with_others(alloc, first.as_str(), others),
    }
}

/// A text with others behind it, each behind a space.
fn with_others(alloc: Global, first: &str, others: &[String]) -> Mem<String>
    ensures { IfOk result (λ text. string_bytes text ≡ first.now ++ flat_map (λ t. codes " " ++ t) (map string_bytes others.now)) }
{
    let mut line = String::from_str(alloc, first)?;
    for text in others {
        line.push_str(" ")?;
        line.push_str(text.as_str())?;
    }
    Ok(line)
}
