//! With memory at hand each call on words and on lists of truths that may lack it answers.
ghost use Rattle.std.specs.Prelude.{◌≡◌, length, IfOk};

use std::alloc::Global;
use std::test::Fail;
use vx_dtype::{Mem, NoMemory};
use vx_words::{Truths, both, push_bit, repeated_bit, without};

/// Whether a list is made and has this truth alone.
pub(crate) fn is_only(made: Mem<Truths>, want: Option<bool>) -> bool {
    match &made {
        Ok(truths) => has_only(truths, want),
        Err(NoMemory) => false,
    }
}

/// Whether a list has this truth alone.
fn has_only(truths: &Truths, want: Option<bool>) -> bool {
    if truths.len() != 1 {
        return false;
    }
    truths.truth_at(0) == want
}

/// Whether a word is made, and is this one.
fn is_word(made: Mem<Vec<u64>>, want: u64) -> bool {
    match &made {
        Ok(words) => words.as_slice() == [want].as_slice(),
        Err(NoMemory) => false,
    }
}

/// The list of true alone.
pub(crate) fn sure(alloc: Global) -> Mem<Truths>
    ensures { IfOk result (λ truths. length truths ≡ 1) }
{
    Truths::from_options(alloc, [Some(true)].as_slice())
}

/// The list of null alone.
fn unknown(alloc: Global) -> Mem<Truths>
    ensures { IfOk result (λ truths. length truths ≡ 1) }
{
    Truths::repeated(alloc, None, 1)
}

/// Whether the connectives and the test for null answer, of the list of true alone and that of null alone.
fn logic_answers(alloc: Global, yes: &Truths, null: &Truths) -> bool
    requires yes { length yes.now ≡ 1 }
    requires null { length null.now ≡ 1 }
{
    is_only(yes.and(alloc, null), None)
        && is_only(yes.or(alloc, null), Some(true))
        && is_only(yes.not(alloc), Some(false))
        && is_only(null.is_null(alloc), Some(true))
}

/// Whether filters and masks by the list of true alone answer.
fn choices_answer(alloc: Global, yes: &Truths, null: &Truths) -> bool
    requires yes { length yes.now ≡ 1 }
    requires null { length null.now ≡ 1 }
{
    is_only(null.filter(alloc, yes), None)
        && is_only(yes.mask(alloc, yes), None)
        && is_word(yes.kept(alloc, [7].as_slice()), 7)
}

/// Whether the calls on lists answer.
fn lists_answer(alloc: Global) -> Mem<bool> {
    let (yes, null) = (sure(alloc)?, unknown(alloc)?);
    Ok(logic_answers(alloc, &yes, &null) && choices_answer(alloc, &yes, &null))
}

/// A copy of the list of true alone.
fn copied(alloc: Global) -> Mem<Truths> {
    Ok(sure(alloc)?.clone()?)
}

/// The word of one bit.
fn pushed(alloc: Global) -> Mem<Vec<u64>> {
    let mut words = Vec::new(alloc);
    push_bit(&mut words, 0, true)?;
    Ok(words)
}

/// Whether the calls on words answer.
fn words_answer(alloc: Global) -> bool {
    is_word(pushed(alloc), 1)
        && is_word(both(alloc, &[12], &[10]), 8)
        && is_word(without(alloc, &[12], &[10]), 4)
        && is_word(repeated_bit(alloc, true, 3), 7)
}

#[test]
fn ample(rt: HostRuntime) -> Result<(), Fail> {
    let alloc = rt.alloc();
    assert!(rt; is_only(sure(alloc), Some(true)));
    assert!(rt; is_only(unknown(alloc), None));
    assert!(rt; is_only(copied(alloc), Some(true)));
    assert!(rt; lists_answer(alloc)?);
    assert!(rt; words_answer(alloc));
    Ok(())
}
