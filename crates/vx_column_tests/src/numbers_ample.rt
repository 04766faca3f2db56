//! With memory at hand each call on lists of integers that may lack it answers.
ghost use Rattle.std.specs.Prelude.{◌≡◌, length, IfOk};
ghost use Rattle.vx_dtype.specs.declared.PType.TheVariants.{I16};

use crate::words_ample::{is_only, sure};
use std::alloc::Global;
use std::test::Fail;
use vx_dtype::{CompareOperator, Mem, NoMemory, PType};
use vx_numbers::Numbers;
use vx_words::Truths;

/// Whether a list is made, and has this type and this number alone.
fn is_one(made: Mem<Numbers>, ptype: PType, want: Option<i128>) -> bool {
    match &made {
        Ok(list) => has_one(list, ptype, want),
        Err(NoMemory) => false,
    }
}

/// The same of a list that there may be none of.
fn is_total(made: Mem<Option<Numbers>>, ptype: PType, want: Option<i128>) -> bool {
    match &made {
        Ok(Some(list)) => has_one(list, ptype, want),
        _ => false,
    }
}

/// Whether a list has this type and this number alone.
fn has_one(list: &Numbers, ptype: PType, want: Option<i128>) -> bool {
    if list.ptype() != ptype {
        return false;
    }
    if list.len() != 1 {
        return false;
    }
    list.number_at(0) == want
}

/// The list of 3 alone.
fn three(alloc: Global) -> Mem<Numbers>
    ensures { IfOk result (λ list. (list.ptype ≡ I16) × (length list.numbers ≡ 1)) }
{
    Numbers::from_options(alloc, PType::I16, [Some(3)].as_slice())
}

/// The list of 2 alone.
fn two(alloc: Global) -> Mem<Numbers>
    ensures { IfOk result (λ list. (list.ptype ≡ I16) × (length list.numbers ≡ 1)) }
{
    Numbers::repeated(alloc, PType::I16, Some(2), 1)
}

/// A copy of a list.
fn copied(list: &Numbers) -> Mem<Numbers> {
    Ok(list.clone()?)
}

/// Whether the calls on the list of 3 alone answer.
fn list_answers(alloc: Global, three: &Numbers) -> bool
    requires { three.now.ptype ≡ I16 }
{
    is_one(copied(three), PType::I16, Some(3))
        && is_only(three.is_null(alloc), Some(false))
        && is_only(
            three.compare_with(alloc, Some(2), CompareOperator::Lt),
            Some(false),
        )
        && is_total(three.cast(alloc, PType::U8), PType::U8, Some(3))
}

/// Whether the calls on the lists of 3 alone and of 2 alone answer.
fn lists_answer(alloc: Global, three: &Numbers, two: &Numbers) -> bool
    requires types { two.now.ptype ≡ three.now.ptype }
    requires lengths { length two.now.numbers ≡ length three.now.numbers }
{
    is_only(three.compare(alloc, two, CompareOperator::Gt), Some(true))
        && is_total(three.checked_add(alloc, two), PType::I16, Some(5))
        && is_total(three.checked_sub(alloc, two), PType::I16, Some(1))
}

/// Whether the filter and the mask of the list of 3 alone by that of true alone answer.
fn choices_answer(alloc: Global, three: &Numbers, yes: &Truths) -> bool
    requires { length yes.now ≡ length three.now.numbers }
{
    is_one(three.filter(alloc, yes), PType::I16, Some(3))
        && is_one(three.mask(alloc, yes), PType::I16, None)
}

/// Whether the calls on one list answer.
fn one_answers(alloc: Global) -> Mem<bool> {
    Ok(list_answers(alloc, &three(alloc)?))
}

/// Whether the calls on two lists answer.
fn two_answer(alloc: Global) -> Mem<bool> {
    Ok(lists_answer(alloc, &three(alloc)?, &two(alloc)?))
}

/// Whether the calls on a list and one of truths answer.
fn chosen_answer(alloc: Global) -> Mem<bool> {
    Ok(choices_answer(alloc, &three(alloc)?, &sure(alloc)?))
}

#[test]
fn ample(rt: HostRuntime) -> Result<(), Fail> {
    let alloc = rt.alloc();
    assert!(rt; is_one(three(alloc), PType::I16, Some(3)));
    assert!(rt; is_one(two(alloc), PType::I16, Some(2)));
    assert!(rt; one_answers(alloc)?);
    assert!(rt; two_answer(alloc)?);
    assert!(rt; chosen_answer(alloc)?);
    Ok(())
}
