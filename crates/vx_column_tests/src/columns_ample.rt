//! With memory at hand each call on columns that may lack it answers.
ghost use Rattle.std.specs.Prelude.{◌≡◌, true, length, IfOk};
ghost use Rattle.vx_dtype.specs.declared.Nullability.TheVariants.{NonNullable as Whole};
ghost use Rattle.vx_dtype.specs.declared.PType.TheVariants.{U8};
ghost use Rattle.vx_dtype.specs.Types.{bool_ty, int_ty, text_ty, list_ty};
ghost use Rattle.vx_dtype.specs.TypeViews.{type_view};
ghost use Rattle.vx_dtype.specs.StructTypes.{is_struct_ty};

use std::alloc::Global;
use std::rc::Rc;
use std::test::Fail;
use vx_column::{ColumnError, ColumnRef};
use vx_dtype::Nullability::NonNullable;
use vx_dtype::{
    BetweenOptions, CompareOperator, DType, ElementType, FieldName, FieldNames, Mem, NoMemory,
    PType, Scalar, ScalarValue, StrictComparison, Text,
};
use vx_kernels::{
    and_kleene, between, cast, checked_add, checked_sub, compare, invert, is_null, like,
    list_contains, or_kleene,
};

/// A column, or why there is none.
type Made = Result<ColumnRef, ColumnError>;

/// The column, where it has one row of this type.
#[tactic(auto, using(vx_dtype::specs::EqualLaws::ty_decides))]
fn one_row(column: ColumnRef, dtype: &DType) -> Made
    ensures dtype { IfOk result (λ c. c.ty ≡ type_view dtype.now) }
    ensures row { IfOk result (λ c. length c.rows ≡ 1) }
{
    if column.len() != 1 {
        return Err(ColumnError::WrongLength);
    }
    if *column.dtype() == *dtype {
        return Ok(column);
    }
    Err(ColumnError::WrongValue)
}

/// A truth.
fn truth(alloc: Global, b: bool) -> Made
    ensures dtype { IfOk result (λ c. c.ty ≡ bool_ty Whole) }
    ensures row { IfOk result (λ c. length c.rows ≡ 1) }
{
    let column = ColumnRef::bool(alloc, vec![in alloc; Some(b)]?, NonNullable)?;
    one_row(column, &DType::Bool(NonNullable))
}

/// A number of u8.
fn number(alloc: Global, i: i128) -> Made
    ensures dtype { IfOk result (λ c. c.ty ≡ int_ty U8 Whole) }
    ensures row { IfOk result (λ c. length c.rows ≡ 1) }
{
    let column = ColumnRef::primitive(alloc, PType::U8, vec![in alloc; Some(i)]?, NonNullable)?;
    one_row(column, &DType::Primitive(PType::U8, NonNullable))
}

/// A text.
fn text(alloc: Global, s: &str) -> Made
    ensures dtype { IfOk result (λ c. c.ty ≡ text_ty Whole) }
    ensures row { IfOk result (λ c. length c.rows ≡ 1) }
{
    let values = vec![in alloc; Some(Text::new(alloc, s)?)]?;
    let column = ColumnRef::utf8(alloc, values, NonNullable)?;
    one_row(column, &DType::Utf8(NonNullable))
}

/// The type of lists of u8.
fn list_type(alloc: Global) -> Mem<DType>
    ensures { IfOk result (λ dtype. type_view dtype ≡ list_ty (int_ty U8 Whole) Whole) }
{
    let element = Rc::new(alloc, DType::Primitive(PType::U8, NonNullable))?;
    Ok(DType::List(ElementType::new(element), NonNullable))
}

/// The list of a number of u8.
fn list(alloc: Global, i: i128) -> Made
    ensures dtype { IfOk result (λ c. c.ty ≡ list_ty (int_ty U8 Whole) Whole) }
    ensures row { IfOk result (λ c. length c.rows ≡ 1) }
{
    let lists = vec![in alloc; Some(vec![in alloc; ScalarValue::Int(i)]?)]?;
    let element = DType::Primitive(PType::U8, NonNullable);
    let column = ColumnRef::list(alloc, element, lists, NonNullable)?;
    one_row(column, &list_type(alloc)?)
}

/// The name of the one field of structs.
fn names(alloc: Global) -> Mem<Vec<FieldName>> {
    Ok(vec![in alloc; FieldName::new(alloc, "a")?]?)
}

/// The struct of a number of u8 alone.
fn structure(alloc: Global, i: i128) -> Made
    ensures { IfOk result (λ c. is_struct_ty c.ty ≡ true) }
{
    let fields = vec![in alloc; number(alloc, i)?]?;
    let names = FieldNames::new(alloc, names(alloc)?)?;
    let column = ColumnRef::struct_(alloc, names, fields, 1, None)?;
    if column.dtype().is_struct() {
        return Ok(column);
    }
    Err(ColumnError::WrongValue)
}

/// Whether a column is made, and is this one.
fn is_made(made: Made, want: &ColumnRef) -> bool {
    match &made {
        Ok(column) => *column == *want,
        Err(_) => false,
    }
}

/// Whether two columns are made, and are equal.
fn are_equal(left: Made, right: Made) -> bool {
    match &right {
        Ok(column) => is_made(left, column),
        Err(_) => false,
    }
}

/// The answer of a call that only memory can be missing for.
fn answered(answer: Mem<ColumnRef>) -> Made {
    match answer {
        Ok(column) => Ok(column),
        Err(NoMemory) => Err(ColumnError::NoMemory),
    }
}

/// The column of a value, which it keeps.
fn kept(alloc: Global, dtype: DType, value: ScalarValue) -> Made {
    ColumnRef::of_values(alloc, dtype, vec![in alloc; value]?)
}

/// The column of a number of u8, which it keeps.
fn kept_number(alloc: Global, i: i128) -> Made {
    kept(
        alloc,
        DType::Primitive(PType::U8, NonNullable),
        ScalarValue::Int(i),
    )
}

/// The column of a copy of a number of u8.
fn copied_number(alloc: Global, i: i128) -> Made {
    let dtype = DType::Primitive(PType::U8, NonNullable);
    ColumnRef::from_values(alloc, dtype, &[ScalarValue::Int(i)])
}

/// The column of a truth, which it keeps.
fn kept_truth(alloc: Global, b: bool) -> Made {
    kept(alloc, DType::Bool(NonNullable), ScalarValue::Bool(b))
}

/// The column of a text, which it keeps.
fn kept_text(alloc: Global, s: &str) -> Made {
    kept(
        alloc,
        DType::Utf8(NonNullable),
        ScalarValue::Utf8(Text::new(alloc, s)?),
    )
}

/// The column of the list of a number of u8, which it keeps.
fn kept_list(alloc: Global, i: i128) -> Made {
    let values = Rc::new(alloc, vec![in alloc; ScalarValue::Int(i)]?)?;
    kept(alloc, list_type(alloc)?, ScalarValue::List(values))
}

/// A number of u8, as a constant of one row.
fn constant_number(alloc: Global, i: u8) -> Made {
    ColumnRef::constant(alloc, &Scalar::from(i), 1)
}

/// Whether columns are made of values.
fn constructors_answer(alloc: Global) -> bool {
    are_equal(kept_number(alloc, 4), number(alloc, 4))
        && are_equal(copied_number(alloc, 4), number(alloc, 4))
        && are_equal(constant_number(alloc, 4), number(alloc, 4))
        && are_equal(truth(alloc, true), kept_truth(alloc, true))
        && are_equal(text(alloc, "a"), kept_text(alloc, "a"))
        && are_equal(list(alloc, 4), kept_list(alloc, 4))
}

/// A copy of a column.
fn copied(column: &ColumnRef) -> Made {
    Ok(column.clone()?)
}

/// Whether a value is made, and is the number 4.
fn is_four(made: Mem<Scalar>) -> bool {
    match &made {
        Ok(scalar) => *scalar == Scalar::from(4u8),
        Err(NoMemory) => false,
    }
}

/// The values of a column behind none.
fn appended(alloc: Global, column: &ColumnRef) -> Mem<Vec<ScalarValue>> {
    let mut values = Vec::new(alloc);
    column.append_to(alloc, &mut values)?;
    Ok(values)
}

/// Whether values are made, and are the number 4 alone.
fn are_four(made: Mem<Vec<ScalarValue>>) -> bool {
    match &made {
        Ok(values) => matches!(values.as_slice(), [ScalarValue::Int(4)]),
        Err(NoMemory) => false,
    }
}

/// Whether a column is made, and has one row, which is null.
fn is_null_row(made: Mem<ColumnRef>) -> bool {
    match &made {
        Ok(column) => column.len() == 1 && !column.is_valid(0),
        Err(NoMemory) => false,
    }
}

/// Whether the calls on the number 4 of u8 answer.
fn number_answers(alloc: Global, four: &ColumnRef) -> bool
    requires { length four.now.rows ≡ 1 }
{
    is_made(copied(four), four)
        && is_four(four.scalar_at(alloc, 0))
        && are_four(appended(alloc, four))
}

/// Whether the number 4 of u8, filtered and masked by true, answers.
fn choices_answer(alloc: Global, four: &ColumnRef, yes: &ColumnRef) -> bool
    requires dtype { yes.now.ty ≡ bool_ty Whole }
    requires rows { length four.now.rows ≡ 1 }
    requires row { length yes.now.rows ≡ 1 }
{
    is_made(answered(four.filter(alloc, yes)), four) && is_null_row(four.mask(alloc, yes))
}

/// A number of u8 as one of i64.
fn widened(alloc: Global, column: &ColumnRef) -> Made
    requires { column.now.ty ≡ int_ty U8 Whole }
{
    cast(alloc, column, &DType::Primitive(PType::I64, NonNullable))
}

/// Whether the number 4 of u8 as one of i64 is that one.
fn cast_answers(alloc: Global) -> Result<bool, ColumnError> {
    let wide = ColumnRef::constant(alloc, &Scalar::from(4i64), 1)?;
    Ok(is_made(widened(alloc, &number(alloc, 4)?), &wide))
}

/// Whether the number 3 is more than 2, and lies between 2, which it may not be, and itself.
#[tactic(auto, unfolding(vx_dtype::specs::TypeRules::alike))]
fn comparisons_answer(alloc: Global, three: &ColumnRef, two: &ColumnRef, yes: &ColumnRef) -> bool
    requires three { three.now.ty ≡ int_ty U8 Whole }
    requires two { two.now.ty ≡ int_ty U8 Whole }
    requires row { length three.now.rows ≡ 1 }
    requires rows { length two.now.rows ≡ 1 }
{
    let options = BetweenOptions {
        lower_strict: StrictComparison::Strict,
        upper_strict: StrictComparison::NonStrict,
    };
    is_made(
        answered(compare(alloc, three, two, CompareOperator::Gt)),
        yes,
    ) && is_made(answered(between(alloc, three, two, three, options)), yes)
}

/// Whether the sum and the difference of the numbers 3 and 2 are 5 and 1.
#[tactic(auto, unfolding(vx_dtype::specs::TypeRules::alike))]
fn totals_answer(alloc: Global, three: &ColumnRef, two: &ColumnRef) -> bool
    requires three { three.now.ty ≡ int_ty U8 Whole }
    requires two { two.now.ty ≡ int_ty U8 Whole }
    requires row { length three.now.rows ≡ 1 }
    requires rows { length two.now.rows ≡ 1 }
{
    are_equal(checked_add(alloc, three, two), number(alloc, 5))
        && are_equal(checked_sub(alloc, three, two), number(alloc, 1))
}

/// Whether the calls on truths answer.
fn logic_answers(alloc: Global, yes: &ColumnRef, no: &ColumnRef) -> bool
    requires yes { yes.now.ty ≡ bool_ty Whole }
    requires no { no.now.ty ≡ bool_ty Whole }
    requires row { length yes.now.rows ≡ 1 }
    requires rows { length no.now.rows ≡ 1 }
{
    is_made(answered(and_kleene(alloc, yes, no)), no)
        && is_made(answered(or_kleene(alloc, yes, no)), yes)
        && is_made(answered(invert(alloc, yes)), no)
        && is_made(answered(is_null(alloc, yes)), no)
}

/// Whether a text is like a pattern.
fn is_like(alloc: Global, s: &str, pattern: &str) -> Made {
    Ok(like(
        alloc,
        &text(alloc, s)?,
        &text(alloc, pattern)?,
        false,
        false,
    )?)
}

/// Whether the list of a number of u8 has it.
#[tactic(auto, unfolding(vx_dtype::specs::TypeRules::alike))]
fn has_itself(alloc: Global, i: i128) -> Made {
    Ok(list_contains(alloc, &list(alloc, i)?, &number(alloc, i)?)?)
}

/// The field of a struct.
fn field(alloc: Global, structure: &ColumnRef) -> Made
    requires { is_struct_ty structure.now.ty ≡ true }
{
    structure.field(alloc, &FieldName::new(alloc, "a")?)
}

/// A struct of its field.
fn projection(alloc: Global, structure: &ColumnRef) -> Made
    requires { is_struct_ty structure.now.ty ≡ true }
{
    structure.project(alloc, &names(alloc)?)
}

/// Whether the calls on the struct of the number 4 answer.
fn structure_answers(alloc: Global, structure: &ColumnRef) -> bool
    requires { is_struct_ty structure.now.ty ≡ true }
{
    are_equal(field(alloc, structure), number(alloc, 4))
        && is_made(projection(alloc, structure), structure)
}

/// Whether the calls on a number answer.
fn number_calls(alloc: Global) -> Result<bool, ColumnError> {
    Ok(number_answers(alloc, &number(alloc, 4)?))
}

/// Whether the calls on a number and a truth answer.
fn choice_calls(alloc: Global) -> Result<bool, ColumnError> {
    Ok(choices_answer(alloc, &number(alloc, 4)?, &truth(alloc, true)?))
}

/// Whether the comparisons of numbers answer.
fn comparison_calls(alloc: Global) -> Result<bool, ColumnError> {
    let (three, two) = (number(alloc, 3)?, number(alloc, 2)?);
    Ok(comparisons_answer(alloc, &three, &two, &truth(alloc, true)?))
}

/// Whether the sums and the differences of numbers answer.
fn total_calls(alloc: Global) -> Result<bool, ColumnError> {
    Ok(totals_answer(alloc, &number(alloc, 3)?, &number(alloc, 2)?))
}

/// Whether the calls on truths answer.
fn logic_calls(alloc: Global) -> Result<bool, ColumnError> {
    Ok(logic_answers(alloc, &truth(alloc, true)?, &truth(alloc, false)?))
}

/// Whether the calls on a struct answer.
fn structure_calls(alloc: Global) -> Result<bool, ColumnError> {
    Ok(structure_answers(alloc, &structure(alloc, 4)?))
}

#[test]
fn ample(rt: HostRuntime) -> Result<(), Fail> {
    let alloc = rt.alloc();
    assert!(rt; constructors_answer(alloc));
    assert!(rt; number_calls(alloc)?);
    assert!(rt; choice_calls(alloc)?);
    assert!(rt; comparison_calls(alloc)?);
    assert!(rt; total_calls(alloc)?);
    assert!(rt; logic_calls(alloc)?);
    assert!(rt; structure_calls(alloc)?);
    assert!(rt; cast_answers(alloc)?);
    assert!(rt; are_equal(is_like(alloc, "abc", "a%"), truth(alloc, true)));
    assert!(rt; are_equal(has_itself(alloc, 4), truth(alloc, true)));
    Ok(())
}
