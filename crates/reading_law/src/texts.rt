//! Laws of texts, over the definitions alone. Each is what its function ensures, so the build proves it.

ghost use Rattle.spj_syntax.specs.Texts.{StatementOnce, OrderOnce, BlockOnce};
ghost use Rattle.reading_law.specs.Texts.{TextsHaveTokens, ShapesDecide, TokensAreDecided, StatementsHaveTrees, StatementsAreStorable, ProvesOfValidValues};

/// Tokens spell a text, or it has a fault.
pub fn texts_have_tokens()
    ensures { TextsHaveTokens }
{}

/// A shape of which one token ahead decides each step generates a list of tokens, or there is their first fault.
pub fn shapes_decide()
    ensures { ShapesDecide }
{}

/// Tokens are refused by a fault, or they are a statement and each of them fits.
pub fn tokens_are_decided()
    ensures { TokensAreDecided }
{}

/// A statement whose tokens spell a text, and each fit, has a tree.
pub fn statements_have_trees()
    ensures { StatementsHaveTrees }
{}

/// A text is one statement at most.
pub fn text_is_one_statement()
    ensures { StatementOnce }
{}

/// A text is one order at most.
pub fn text_is_one_order()
    ensures { OrderOnce }
{}

/// A text is one block at most.
pub fn text_is_one_block()
    ensures { BlockOnce }
{}

/// What a statement puts into a state can stand there, if its tokens spell a text and each fit.
pub fn statements_are_storable()
    ensures { StatementsAreStorable }
{}

/// The row that is to be proved and the literals of the query are valid, if the statement's tokens spell a text and each fit.
pub fn proves_of_valid_values()
    ensures { ProvesOfValidValues }
{}
