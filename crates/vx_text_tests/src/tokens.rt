// Tests of vx_tokens.
use std::alloc::Global;
use std::test::Fail;
use vx_tokens::{Keyword, Token, tokens_of};

/// Whether `not a` is cut into its two words.
fn tokens_of_answers(alloc: Global) -> Result<bool, Fail> {
    let tokens = tokens_of(alloc, "not a".as_bytes())?.ok_or("tokens stand at each place")?;
    Ok(matches!(
        tokens.as_slice(),
        [Token::Reserved(Keyword::Not), Token::Word(_)]
    ))
}

#[test]
fn ample(rt: HostRuntime) -> Result<(), Fail> {
    assert!(rt; tokens_of_answers(rt.alloc())?, "tokens_of");
    Ok(())
}
