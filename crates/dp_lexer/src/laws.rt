//! What the tokens of a text are, proved of their definition.
ghost use Rattle.dp_lexer.specs.TokenLaws.{TokensAreOfText, FirstBadByteIsNamed};

/// A list is the tokens of a text exactly where each is a token of it, they are in order, and
/// together they are the text without blanks and comments.
pub fn tokens_are_of_text()
    ensures { TokensAreOfText }
{}

/// A text has no tokens exactly where it has a bad byte, and the first of these is named.
pub fn first_bad_byte_is_named()
    ensures { FirstBadByteIsNamed }
{}
