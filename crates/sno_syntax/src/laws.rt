//! What holds of programs and the cards that spell them, each the contract of a function that does nothing.
ghost use Rattle.sno_syntax.specs.Laws.{OneProgram, NotRefused, RefusedExactly, ReadsPrograms, SpellsOne};

/// Cards spell at most one program: precedence, the sides of operators and blanks leave no choice.
pub fn one_program()
    ensures { OneProgram }
{}

/// No program of the language is refused: where cards spell a program, they have no refusal.
pub fn not_refused()
    ensures { NotRefused }
{}

/// A statement is refused exactly by the refusal that it has: that of its label, or else of the token stage, or else of the
/// leftmost fault of its tokens.
pub fn refused_exactly()
    ensures { RefusedExactly }
{}

/// Where cards spell a program, it is the one that is read.
pub fn reads_programs()
    ensures { ReadsPrograms }
{}

/// Cards that are not refused spell a program.
pub fn spells_one()
    ensures { SpellsOne }
{}
