// The metadata of each kind, written.
ghost use Rattle.std.specs.Prelude.{◌≡◌, ◌<◌, ◌≤◌, ◌^◌, ◌++◌, ◌∷◌, length, IfOk, IfErr, OnOk, OnErr};
ghost use Rattle.vx_dtype.specs.TypeViews.{type_view};
ghost use Rattle.vx_dtype.specs.RawViews.{raw_view};
ghost use Rattle.vx_dtype.specs.TypeRules.{depth_of, most_deep, null_number};
ghost use Rattle.vx_expr.specs.Trees.{children_of};
ghost use Rattle.vx_expr.specs.Selections.{listed_names};
ghost use Rattle.vx_wire_bytes.specs.Fields.{IsShort, IsText};
ghost use Rattle.vx_wire_bytes.specs.Numbers.{piece_bytes};
ghost use Rattle.vx_wire_bytes.specs.TypeForms.{type_bytes, NamesAre, IsType};
ghost use Rattle.vx_wire_bytes.specs.ValueForms.{truth_byte, value_bytes, TextsAre, IsValue};
ghost use Rattle.vx_wire.specs.Metadata.{strictness_byte, choice_byte, texts_bytes, names_bytes, AreNames, AreShort, metadata_bytes, HasMetadata, takes, IsSerializable, HasShortMetadata, IsNoEmptyMerge};
ghost use Rattle.vx_wire.specs.ReadBack.{literal_bytes, IsLiteral, packing_bytes, selection_bytes, IsSelection};
ghost use Rattle.vx_wire.specs.Serializing.{IsWritten, IsUnwrittenLong};

use std::alloc::Global;
use vx_dtype::{DType, FieldName, FieldNames, Nullability, Scalar, StrictComparison};
use vx_expr::{Expr, ExprRef, FieldSelection};
use vx_wire_bytes::{
    LONG, WireError, has_short_names, has_short_texts, write_number, write_type, write_value,
};

/// The byte of a truth value.
fn truth_byte_of(truth: bool) -> u8
    ensures { result ≡ truth_byte truth }
{
    if truth { 1 } else { 0 }
}

/// The byte of a bound.
fn strictness_byte_of(strictness: StrictComparison) -> u8
    ensures { result ≡ strictness_byte strictness }
{
    match strictness {
        StrictComparison::NonStrict => 0,
        StrictComparison::Strict => 1,
    }
}

/// The byte of a choice of fields.
fn choice_byte_of(included: bool) -> u8
    ensures { result ≡ choice_byte included }
{
    if included { 0 } else { 1 }
}

/// Writes a name at the end, as far as there is memory.
fn push_name(out: &mut Vec<u8>, name: &FieldName) -> Result<(), WireError>
    ensures ok { OnOk result (IsText name.now × (out.new.items ≡ out.old.items ++ piece_bytes name.now)) }
    ensures err { IfErr result (IsUnwrittenLong (IsShort name.now)) }
{
    let bytes = name.as_str().as_bytes();
    if bytes.len() >= LONG {
        return Err(WireError::TooLong);
    }
    write_number(out, bytes.len() as u32)?;
    out.extend_from_slice(bytes)?;
    Ok(())
}

/// Writes the number of the names and the names at the end, as far as there is memory.
fn push_names(out: &mut Vec<u8>, names: &FieldNames) -> Result<(), WireError>
    ensures ok { OnOk result (AreNames names.now × (out.new.items ≡ out.old.items ++ names_bytes names.now)) }
    ensures err { IfErr result (IsUnwrittenLong (AreShort names.now)) }
{
    if names.len() >= LONG {
        return Err(WireError::TooLong);
    }
    write_number(out, names.len() as u32)?;
    let names = names.as_slice();
    for i in 0..names.len() {
        push_name(out, &names[i])?;
    }
    Ok(())
}

/// The bytes of a name.
fn name_bytes(alloc: Global, name: &FieldName) -> Result<Vec<u8>, WireError>
    ensures ok { IfOk result (λ bytes. IsText name.now × (bytes.items ≡ piece_bytes name.now)) }
    ensures err { IfErr result (IsUnwrittenLong (IsShort name.now)) }
{
    let mut out = Vec::new(alloc);
    push_name(&mut out, name)?;
    Ok(out)
}

/// The bytes of a type.
fn dtype_bytes(alloc: Global, dtype: &DType) -> Result<Vec<u8>, WireError>
    requires { depth_of (type_view dtype.now) ≤ most_deep }
    ensures ok { IfOk result (λ bytes. IsType (type_view dtype.now) × (bytes.items ≡ type_bytes (type_view dtype.now))) }
    ensures err { IfErr result (IsUnwrittenLong (NamesAre IsShort (type_view dtype.now))) }
{
    if !has_short_names(dtype) {
        return Err(WireError::TooLong);
    }
    let mut out = Vec::new(alloc);
    write_type(&mut out, dtype)?;
    Ok(out)
}

/// The bytes of a type and a value of it.
fn scalar_bytes(alloc: Global, scalar: &Scalar) -> Result<Vec<u8>, WireError>
    requires { depth_of scalar.now.ty ≤ most_deep }
    ensures ok { IfOk result (λ bytes. IsLiteral scalar.now × (bytes.items ≡ literal_bytes scalar.now)) }
    ensures err { IfErr result (IsUnwrittenLong (NamesAre IsShort scalar.now.ty × TextsAre IsShort scalar.now.value)) }
{
    if !has_short_texts(scalar.value()) {
        return Err(WireError::TooLong);
    }
    if !has_short_names(scalar.dtype()) {
        return Err(WireError::TooLong);
    }
    let mut out = Vec::new(alloc);
    write_type(&mut out, scalar.dtype())?;
    write_value(&mut out, scalar.dtype(), scalar.value())?;
    Ok(out)
}

/// The bytes of a choice of fields.
fn choice_bytes(alloc: Global, selection: &FieldSelection) -> Result<Vec<u8>, WireError>
    ensures ok { IfOk result (λ bytes. IsSelection selection.now × (bytes.items ≡ selection_bytes selection.now)) }
    ensures err { IfErr result (IsUnwrittenLong (AreShort (listed_names selection.now))) }
{
    let mut out = Vec::new(alloc);
    out.push(choice_byte_of(selection.is_include()))?;
    push_names(&mut out, selection.field_names())?;
    Ok(out)
}

/// The bytes of a nullability and names.
fn named_bytes(
    alloc: Global,
    nullability: Nullability,
    names: &FieldNames,
) -> Result<Vec<u8>, WireError>
    ensures ok { IfOk result (λ bytes. AreNames names.now × (bytes.items ≡ null_number nullability ∷ names_bytes names.now)) }
    ensures err { IfErr result (IsUnwrittenLong (AreShort names.now)) }
{
    let mut out = Vec::new(alloc);
    out.push(nullability.number())?;
    push_names(&mut out, names)?;
    Ok(out)
}

/// The metadata of a node, whatever stands below it.
///
/// Refuses with TooLong exactly where a text or a list in it has 2^32 or more.
pub fn metadata_of(alloc: Global, expr: &ExprRef) -> Result<Vec<u8>, WireError>
    requires { IsSerializable expr.now }
    ensures ok { IfOk result (λ bytes. IsWritten expr.now × (bytes.items ≡ metadata_bytes expr.now)) }
    ensures err { IfErr result (IsUnwrittenLong (HasShortMetadata expr.now)) }
{
    match expr.expr() {
        Expr::Between(node) => {
            let options = node.options();
            let lower = strictness_byte_of(options.lower_strict);
            let upper = strictness_byte_of(options.upper_strict);
            Ok(vec![in alloc; lower, upper]?)
        }
        Expr::Binary(node) => Ok(vec![in alloc; node.op().number()]?),
        Expr::Cast(node) => dtype_bytes(alloc, node.target()),
        Expr::Dynamic(_) => unreachable!(),
        Expr::GetItem(node) => name_bytes(alloc, node.field()),
        Expr::Like(node) => {
            let negated = truth_byte_of(node.negated());
            let fold_case = truth_byte_of(node.case_insensitive());
            Ok(vec![in alloc; negated, fold_case]?)
        }
        Expr::Literal(node) => scalar_bytes(alloc, node.value()),
        Expr::Merge(node) => Ok(vec![in alloc; node.nullability().number()]?),
        Expr::Pack(node) => named_bytes(alloc, node.nullability(), node.names()),
        Expr::Select(node) => choice_bytes(alloc, node.selection()),
        Expr::IsNull(_) | Expr::ListContains(_) | Expr::Not(_) | Expr::Root(_) => {
            Ok(Vec::new(alloc))
        }
    }
}
