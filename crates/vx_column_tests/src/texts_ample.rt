//! With memory at hand each call on lists of texts that may lack it answers.
ghost use Rattle.std.specs.Prelude.{◌≡◌, length, IfOk};

use crate::words_ample::{is_only, sure};
use std::alloc::Global;
use std::test::Fail;
use vx_dtype::{CompareOperator, Mem, NoMemory};
use vx_texts::{Texts, TextsBuilder, TextsError};
use vx_words::Truths;

/// Whether a list is made, and has this text alone.
fn is_one(made: Mem<Texts>, want: Option<&str>) -> bool {
    match &made {
        Ok(list) => has_one(list, want),
        Err(NoMemory) => false,
    }
}

/// The same of a list that may be too long.
fn is_short(made: Result<Texts, TextsError>, want: Option<&str>) -> bool {
    match &made {
        Ok(list) => has_one(list, want),
        Err(_) => false,
    }
}

/// Whether a list has this text alone.
fn has_one(list: &Texts, want: Option<&str>) -> bool {
    if list.len() != 1 {
        return false;
    }
    list.text_at(0) == want
}

/// The list of `b` alone.
fn letter(alloc: Global) -> Result<Texts, TextsError>
    ensures { IfOk result (λ list. length list ≡ 1) }
{
    Texts::from_options(alloc, [Some("b")].as_slice())
}

/// The list of this text alone, pushed to a builder.
fn pushed(builder: Mem<TextsBuilder>, text: &str) -> Result<Texts, TextsError> {
    let mut builder = builder?;
    builder.push(Some(text))?;
    Ok(builder.finish()?)
}

/// A copy of a list.
fn copied(list: &Texts) -> Mem<Texts> {
    Ok(list.clone()?)
}

/// Whether the calls on the list of `b` alone answer.
fn list_answers(alloc: Global, letter: &Texts) -> bool
    requires { length letter.now ≡ 1 }
{
    is_one(copied(letter), Some("b"))
        && is_only(letter.is_null(alloc), Some(false))
        && is_only(
            letter.compare_with(alloc, "c", CompareOperator::Lt),
            Some(true),
        )
        && is_only(
            letter.compare(alloc, letter, CompareOperator::Lt),
            Some(false),
        )
}

/// Whether the filter and the mask of the list of `b` alone by that of true alone answer.
fn choices_answer(alloc: Global, letter: &Texts, yes: &Truths) -> bool
    requires { length yes.now ≡ length letter.now }
{
    is_one(letter.filter(alloc, yes), Some("b")) && is_one(letter.mask(alloc, yes), None)
}

/// Whether the calls on one list answer.
fn one_answers(alloc: Global) -> Result<bool, TextsError> {
    Ok(list_answers(alloc, &letter(alloc)?))
}

/// Whether the calls on a list and one of truths answer.
fn chosen_answer(alloc: Global) -> Result<bool, TextsError> {
    Ok(choices_answer(alloc, &letter(alloc)?, &sure(alloc)?))
}

#[test]
fn ample(rt: HostRuntime) -> Result<(), Fail> {
    let alloc = rt.alloc();
    assert!(rt; is_short(letter(alloc), Some("b")));
    assert!(rt; is_short(pushed(TextsBuilder::new(alloc), "é"), Some("é")));
    assert!(rt;
        is_short(
            pushed(TextsBuilder::with_capacity(alloc, 1, 1), ""),
            Some("")
        )
    );
    assert!(rt; one_answers(alloc)?);
    assert!(rt; chosen_answer(alloc)?);
    Ok(())
}
