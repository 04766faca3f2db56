// Whether a type has the null.
ghost use Rattle.std.specs.Prelude.{◌≡◌, Some};
ghost use Rattle.vx_dtype.specs.TypeRules.{is_nullable, null_number, null_numbered, union};
ghost use Rattle.vx_dtype.specs.Texts.{nullability_text};

use std::fmt;

/// Whether null is a value of a type.
#[derive(Clone, Copy, PartialEq, Eq, Hash, Debug)]
pub enum Nullability {
    NonNullable,
    Nullable,
}

impl From<bool> for Nullability {
    ghost from_gives = { λ nullable n. is_nullable n ≡ nullable };

    fn from(nullable: bool) -> Nullability {
        if nullable {
            Nullability::Nullable
        } else {
            Nullability::NonNullable
        }
    }
}

impl Nullability {
    /// Nullable where one of the two is.
    pub fn union(self, other: Nullability) -> Nullability
        ensures { result ≡ union self other }
    {
        match self {
            Nullability::NonNullable => other,
            Nullability::Nullable => Nullability::Nullable,
        }
    }

    /// The number of the nullability, in hashes and in wire form: 1 where null is a value, else 0.
    pub fn number(self) -> u8
        ensures { result ≡ null_number self }
    {
        match self {
            Nullability::NonNullable => 0,
            Nullability::Nullable => 1,
        }
    }

    /// The nullability of this number. None exactly from 2 on.
    pub fn from_number(number: u8) -> Option<Nullability>
        ensures { result ≡ null_numbered number }
    {
        match number {
            0 => Some(Nullability::NonNullable),
            1 => Some(Nullability::Nullable),
            _ => None,
        }
    }
}

impl fmt::Display for Nullability {
    ghost output = { λ n. Some (nullability_text n) };

    fn fmt<W: fmt::Write>(&self, f: &mut fmt::Formatter<W>) -> fmt::Result {
        f.write_str(match self {
            Nullability::NonNullable => "",
            Nullability::Nullable => "?",
        })
    }
}
