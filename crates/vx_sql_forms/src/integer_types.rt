// Integer types, and the one in which numbers of two or three of them are compared.
ghost use Rattle.std.specs.Prelude.{◌≡◌, ◌&&◌};
ghost use Rattle.std.specs.List.{find};
ghost use Rattle.vx_dtype.specs.TypeRules.{is_plain};
ghost use Rattle.vx_dtype.specs.TypeViews.{type_view};
ghost use Rattle.vx_laws_sql.specs.CommonTypes.{holds_type, common_type, common_of_three};
ghost use Rattle.vx_laws_sql.specs.Operands.{ptype_of};

use vx_dtype::{DType, PType};

/// The integer types from the narrowest on.
const BY_WIDTH: [PType; 8] = [
    PType::U8,
    PType::I8,
    PType::U16,
    PType::I16,
    PType::U32,
    PType::I32,
    PType::U64,
    PType::I64,
];

/// Whether each number of the second type is one of the first.
fn holds(holder: PType, held: PType) -> bool
    ensures { result ≡ holds_type holder held }
{
    holder.least() <= held.least() && held.greatest() <= holder.greatest()
}

/// The narrowest integer type that has each number of both. None exactly where no type has them: of `u64` and a signed type.
pub fn common_type(left: PType, right: PType) -> Option<PType>
    ensures { result ≡ common_type left right }
{
    first_for_two(&BY_WIDTH, left, right)
}

/// The same of three.
pub(crate) fn common_of_three(first: PType, second: PType, third: PType) -> Option<PType>
    ensures { result ≡ common_of_three first second third }
{
    first_for_three(&BY_WIDTH, first, second, third)
}

/// The first of these types that has each number of both.
fn first_for_two(types: &[PType], left: PType, right: PType) -> Option<PType>
    ensures { result ≡ find (λ c. holds_type c left && holds_type c right) types.now }
{
    types
        .iter()
        .copied()
        .find(|c| holds(*c, left) && holds(*c, right))
}

/// The first of these types that has each number of all three.
fn first_for_three(types: &[PType], first: PType, second: PType, third: PType) -> Option<PType>
    ensures { result ≡ find (λ c. holds_type c first && (holds_type c second && holds_type c third)) types.now }
{
    types.iter().copied().find(|c| holds(*c, first) && holds(*c, second) && holds(*c, third))
}

/// The integer type that a type is, and None of another type.
pub(crate) fn integer_type(dtype: &DType) -> Option<PType>
    ensures { result ≡ ptype_of (type_view dtype.now) }
{
    match dtype {
        DType::Primitive(p, _) => Some(*p),
        _ => None,
    }
}

/// Whether a type is booleans, integers or texts.
pub fn is_plain(dtype: &DType) -> bool
    ensures { result ≡ is_plain (type_view dtype.now) }
{
    match dtype {
        DType::Bool(_) | DType::Primitive(_, _) | DType::Utf8(_) => true,
        DType::List(_, _) | DType::Struct(_, _) => false,
    }
}
