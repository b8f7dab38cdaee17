//! Laws of tokens, pieces and numbers.

ghost use Rattle.ct_text.specs.NumberLaw.{NumbersAreDecimal, SignedNumbersAreDecimal};
ghost use Rattle.ct_text.specs.PiecesLaw.{PiecesJoinToText};
ghost use Rattle.ct_text.specs.TokenLaw.{TokensStandInText};

/// A text spells a number exactly where it is what [`push_natural`](crate::push_natural) writes of it.
pub fn numbers_are_decimal()
    ensures { NumbersAreDecimal }
{}

/// The same of a number with its sign and what [`push_signed`](crate::push_signed) writes of it.
pub fn signed_numbers_are_decimal()
    ensures { SignedNumbersAreDecimal }
{}

/// The tokens of a text are the longest runs of bytes that are neither blank nor in a comment, each at the place that
/// the lines and bytes before it give.
pub fn tokens_stand_in_text()
    ensures { TokensStandInText }
{}

/// The pieces of a text are those without a separator that give the text where they are joined by it.
pub fn pieces_join_to_text()
    ensures { PiecesJoinToText }
{}
