// The integer type in which numbers of two integer types are compared.

ghost use Rattle.vx_laws_sql.specs.TypeLaws.{CommonTypeHoldsBoth, CommonTypeIsNarrowest, HeldNumbersFit, TypesApartHaveNone};

/// The common type of two integer types has each number of both, and each type that has them has each number of the common type.
/// Of three types without one, two have none.
pub fn common_type_is_the_narrowest()
    ensures numbers { HeldNumbersFit }
    ensures both { CommonTypeHoldsBoth }
    ensures narrowest { CommonTypeIsNarrowest }
    ensures apart { TypesApartHaveNone }
{}
