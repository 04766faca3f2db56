// The tokens of a query.
ghost use Rattle.std.specs.Prelude.{◌≡◌};
ghost use Rattle.vx_tokens.specs.Tokens.{sign_number, is_sign, is_not};

use vx_dtype::{PType, Text};

/// The words that are no names.
#[derive(Clone, Copy, Debug)]
pub enum Keyword {
    Or,
    And,
    Not,
    True,
    False,
    Null,
    Lit,
    IsNull,
    Cast,
    Contains,
    Like,
    NotLike,
    Ilike,
    NotIlike,
    Between,
    BetweenOo,
    BetweenOc,
    BetweenCo,
    Pack,
    PackNull,
    Merge,
    MergeNull,
}

/// The tokens of one or two characters that are neither words, names, texts nor numbers.
#[derive(Clone, Copy, Debug)]
pub enum Sign {
    RoundOpen,
    RoundClose,
    SquareOpen,
    SquareClose,
    CurlyOpen,
    CurlyClose,
    Comma,
    Colon,
    Dot,
    Dollar,
    Question,
    Tilde,
    Plus,
    Minus,
    Eq,
    NotEq,
    Gt,
    Gte,
    Lt,
    Lte,
}

/// A token of a query.
#[derive(Debug, Drop)]
pub enum Token {
    /// A word that is no name.
    Reserved(Keyword),
    /// Any other word.
    Word(Text),
    /// A name between two `"`, without them, and with one `"` where two stand.
    Quoted(Text),
    /// A text between two `'`, in the same way.
    Quote(Text),
    /// The digits of a number, and the integer type whose name stands behind them.
    Number(Text, Option<PType>),
    Mark(Sign),
}

impl Sign {
    /// The place of the sign in its list.
    fn number(self) -> u8
        ensures { result ≡ sign_number self }
    {
        match self {
            Sign::RoundOpen => 0,
            Sign::RoundClose => 1,
            Sign::SquareOpen => 2,
            Sign::SquareClose => 3,
            Sign::CurlyOpen => 4,
            Sign::CurlyClose => 5,
            Sign::Comma => 6,
            Sign::Colon => 7,
            Sign::Dot => 8,
            Sign::Dollar => 9,
            Sign::Question => 10,
            Sign::Tilde => 11,
            Sign::Plus => 12,
            Sign::Minus => 13,
            Sign::Eq => 14,
            Sign::NotEq => 15,
            Sign::Gt => 16,
            Sign::Gte => 17,
            Sign::Lt => 18,
            Sign::Lte => 19,
        }
    }
}

impl Token {
    /// Whether the token is this sign.
    pub fn is_sign(&self, sign: Sign) -> bool
        ensures { result ≡ is_sign sign self.now }
    {
        match self {
            Token::Mark(mark) => sign.number() == mark.number(),
            Token::Reserved(_) => false,
            Token::Word(_) => false,
            Token::Quoted(_) => false,
            Token::Quote(_) => false,
            Token::Number(_, _) => false,
        }
    }

    /// Whether the token is the word `not`.
    pub fn is_not(&self) -> bool
        ensures { result ≡ is_not self.now }
    {
        match self {
            Token::Reserved(word) => matches!(word, Keyword::Not),
            Token::Mark(_) => false,
            Token::Word(_) => false,
            Token::Quoted(_) => false,
            Token::Quote(_) => false,
            Token::Number(_, _) => false,
        }
    }
}
