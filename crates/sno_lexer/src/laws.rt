//! Laws over texts: a function's contract is the law, and its body is empty.
ghost use Rattle.sno_lexer.specs.Laws.{TokensTellTheText, NothingElseTellsIt};

/// The tokens of a text tell it: it is these tokens written out, each as long as it can be, where its offset says, with
/// nothing but blanks before, between and after them; or they tell it up to its fault.
pub fn tokens_tell_the_text()
    ensures { TokensTellTheText }
{}

/// Nothing else tells it: no text can be read in two ways.
pub fn nothing_else_tells_it()
    ensures { NothingElseTellsIt }
{}
