// Scalars from booleans and integers, none of them nullable.
ghost use Rattle.std.specs.Prelude.{◌≡◌};

use super::Scalar;
use crate::integers::PType;
use crate::nulls::Nullability;
use crate::types::DType;
use crate::values::ScalarValue;

impl From<bool> for Scalar {
    ghost use Rattle.vx_dtype.specs.Types.{bool_ty, NonNullable};
    ghost use Rattle.vx_dtype.specs.Values.{raw_bool};
    ghost use Rattle.vx_dtype.specs.ScalarAnswers.{typed};

    ghost from_gives = { λ b scalar. scalar ≡ typed (bool_ty NonNullable) (raw_bool b) };

    fn from(b: bool) -> Scalar {
        Scalar::bool(b, Nullability::NonNullable)
    }
}

impl From<u8> for Scalar {
    ghost use Rattle.std.specs.Prelude.{pos};
    ghost use Rattle.vx_dtype.specs.Types.{int_ty, U8, NonNullable};
    ghost use Rattle.vx_dtype.specs.Values.{raw_int};
    ghost use Rattle.vx_dtype.specs.ScalarAnswers.{typed};

    ghost from_gives = { λ i scalar. scalar ≡ typed (int_ty U8 NonNullable) (raw_int (pos i)) };

    #[tactic(auto, unfolding(crate::specs::Fits::fits))]
    fn from(i: u8) -> Scalar {
        Scalar {
            dtype: DType::Primitive(PType::U8, Nullability::NonNullable),
            value: ScalarValue::Int(i128::from(i)),
        }
    }
}

impl From<u16> for Scalar {
    ghost use Rattle.std.specs.Prelude.{pos};
    ghost use Rattle.vx_dtype.specs.Types.{int_ty, U16, NonNullable};
    ghost use Rattle.vx_dtype.specs.Values.{raw_int};
    ghost use Rattle.vx_dtype.specs.ScalarAnswers.{typed};

    ghost from_gives = { λ i scalar. scalar ≡ typed (int_ty U16 NonNullable) (raw_int (pos i)) };

    #[tactic(auto, unfolding(crate::specs::Fits::fits))]
    fn from(i: u16) -> Scalar {
        Scalar {
            dtype: DType::Primitive(PType::U16, Nullability::NonNullable),
            value: ScalarValue::Int(i128::from(i)),
        }
    }
}

impl From<u32> for Scalar {
    ghost use Rattle.std.specs.Prelude.{pos};
    ghost use Rattle.vx_dtype.specs.Types.{int_ty, U32, NonNullable};
    ghost use Rattle.vx_dtype.specs.Values.{raw_int};
    ghost use Rattle.vx_dtype.specs.ScalarAnswers.{typed};

    ghost from_gives = { λ i scalar. scalar ≡ typed (int_ty U32 NonNullable) (raw_int (pos i)) };

    #[tactic(auto, unfolding(crate::specs::Fits::fits))]
    fn from(i: u32) -> Scalar {
        Scalar {
            dtype: DType::Primitive(PType::U32, Nullability::NonNullable),
            value: ScalarValue::Int(i128::from(i)),
        }
    }
}

impl From<u64> for Scalar {
    ghost use Rattle.std.specs.Prelude.{pos};
    ghost use Rattle.vx_dtype.specs.Types.{int_ty, U64, NonNullable};
    ghost use Rattle.vx_dtype.specs.Values.{raw_int};
    ghost use Rattle.vx_dtype.specs.ScalarAnswers.{typed};

    ghost from_gives = { λ i scalar. scalar ≡ typed (int_ty U64 NonNullable) (raw_int (pos i)) };

    #[tactic(auto, unfolding(crate::specs::Fits::fits))]
    fn from(i: u64) -> Scalar {
        Scalar {
            dtype: DType::Primitive(PType::U64, Nullability::NonNullable),
            value: ScalarValue::Int(i128::from(i)),
        }
    }
}

impl From<i8> for Scalar {
    ghost use Rattle.vx_dtype.specs.Types.{int_ty, I8, NonNullable};
    ghost use Rattle.vx_dtype.specs.Values.{raw_int};
    ghost use Rattle.vx_dtype.specs.ScalarAnswers.{typed};

    ghost from_gives = { λ i scalar. scalar ≡ typed (int_ty I8 NonNullable) (raw_int i) };

    #[tactic(auto, unfolding(crate::specs::Fits::fits))]
    fn from(i: i8) -> Scalar {
        Scalar {
            dtype: DType::Primitive(PType::I8, Nullability::NonNullable),
            value: ScalarValue::Int(i128::from(i)),
        }
    }
}

impl From<i16> for Scalar {
    ghost use Rattle.vx_dtype.specs.Types.{int_ty, I16, NonNullable};
    ghost use Rattle.vx_dtype.specs.Values.{raw_int};
    ghost use Rattle.vx_dtype.specs.ScalarAnswers.{typed};

    ghost from_gives = { λ i scalar. scalar ≡ typed (int_ty I16 NonNullable) (raw_int i) };

    #[tactic(auto, unfolding(crate::specs::Fits::fits))]
    fn from(i: i16) -> Scalar {
        Scalar {
            dtype: DType::Primitive(PType::I16, Nullability::NonNullable),
            value: ScalarValue::Int(i128::from(i)),
        }
    }
}

impl From<i32> for Scalar {
    ghost use Rattle.vx_dtype.specs.Types.{int_ty, I32, NonNullable};
    ghost use Rattle.vx_dtype.specs.Values.{raw_int};
    ghost use Rattle.vx_dtype.specs.ScalarAnswers.{typed};

    ghost from_gives = { λ i scalar. scalar ≡ typed (int_ty I32 NonNullable) (raw_int i) };

    #[tactic(auto, unfolding(crate::specs::Fits::fits))]
    fn from(i: i32) -> Scalar {
        Scalar {
            dtype: DType::Primitive(PType::I32, Nullability::NonNullable),
            value: ScalarValue::Int(i128::from(i)),
        }
    }
}

impl From<i64> for Scalar {
    ghost use Rattle.vx_dtype.specs.Types.{int_ty, I64, NonNullable};
    ghost use Rattle.vx_dtype.specs.Values.{raw_int};
    ghost use Rattle.vx_dtype.specs.ScalarAnswers.{typed};

    ghost from_gives = { λ i scalar. scalar ≡ typed (int_ty I64 NonNullable) (raw_int i) };

    #[tactic(auto, unfolding(crate::specs::Fits::fits))]
    fn from(i: i64) -> Scalar {
        Scalar {
            dtype: DType::Primitive(PType::I64, Nullability::NonNullable),
            value: ScalarValue::Int(i128::from(i)),
        }
    }
}
