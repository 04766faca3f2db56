// A struct type for examples and tests.
ghost use Rattle.std.specs.Prelude.{◌≡◌, IfOk};
ghost use Rattle.vx_dtype.specs.TypeViews.{type_view};
ghost use Rattle.vx_build.specs.Samples.{sample_struct};

use std::alloc::Global;
use vx_dtype::{DType, FieldName, FieldNames, Mem, Nullability, PType, StructFields};

/// The type `{a=i32, col1=u16?, col2=u16?, bool1=bool, bool2=bool}`, not nullable.
pub fn struct_dtype(alloc: Global) -> Mem<DType>
    ensures { IfOk result (λ made. type_view made ≡ sample_struct) }
{
    let names = vec![in alloc;
        FieldName::new(alloc, "a")?,
        FieldName::new(alloc, "col1")?,
        FieldName::new(alloc, "col2")?,
        FieldName::new(alloc, "bool1")?,
        FieldName::new(alloc, "bool2")?,
    ]?;
    let dtypes = vec![in alloc;
        DType::Primitive(PType::I32, Nullability::NonNullable),
        DType::Primitive(PType::U16, Nullability::Nullable),
        DType::Primitive(PType::U16, Nullability::Nullable),
        DType::Bool(Nullability::NonNullable),
        DType::Bool(Nullability::NonNullable),
    ]?;
    let names = FieldNames::new(alloc, names)?;
    let fields = StructFields::new(alloc, names, dtypes)?;
    Ok(DType::Struct(fields, Nullability::NonNullable))
}
