//! What to write instead of a name that other SNOBOL4 systems have.
ghost use Rattle.std.specs.Prelude.{◌≡◌};
ghost use Rattle.program_advice.specs.Substitutes.{is_among, instead_of_function, instead_of_library_function, instead_of_string_function};
ghost use Rattle.program_advice.specs.Substitutes.{instead_of_keyword, instead_of_label, instead_of_variable};

/// What to write instead of a name.
#[derive(Clone, Copy)]
pub enum Instead {
    /// A table.
    Table,
    /// A second table, with keys in order.
    Sorting,
    /// A variable for each field.
    Fields,
    /// A computed goto.
    ComputedGoto,
    /// A function of the program.
    OwnFunction,
    /// `REPLACE(V)`, `+V`
    Conversion,
    /// `M - (M / N) * N`
    Remainder,
    /// `DUPL(' ',N - SIZE(S)) S`
    PaddingBefore,
    /// `S DUPL(' ',N - SIZE(S))`
    PaddingBehind,
    /// `S TAB(I - 1) LEN(N) . PART`
    Part,
    /// A loop.
    Reversal,
    /// `BREAK(S) ARBNO(LEN(1) BREAK(S))`
    BreakAgain,
    /// The pattern of that name.
    LoneFence,
    /// `IDENT(S,T)`
    Identical,
    /// `DIFFER(S,T)`
    Different,
    /// `LGT(T,S)`
    ComesBefore,
    /// `~LGT(T,S)`
    NotBefore,
    /// `~LGT(S,T)`
    NotAfter,
    /// `DIFFER(A,B) A`
    ValueIfDifferent,
    /// Characters in a literal.
    Characters,
    /// `$N`
    ByName,
    /// REWIND, and reading again.
    Rereading,
    /// An assignment to OUTPUT.
    Printing,
    /// A record of the job's data.
    DataRecord,
    /// Integers of a smaller unit.
    SmallerUnit,
    /// The variable of that name.
    PatternVariable,
    /// DETACH
    Detaching,
    /// The name as a value, and `$` before the call.
    ReturnedName,
    /// The name in capitals.
    Capitals,
    /// OUTPUT
    Output,
    /// Nothing does what it did.
    Nothing,
}

impl Instead {
    /// What it says.
    pub fn text(self) -> &'static str {
        match self {
            Instead::Table => "write a table, A = TABLE(), and A<I ',' J> for A<I,J>",
            Instead::Sorting =>
                "write a second table of its keys, KEYS<I>: put each in its place as it comes, by LGT",
            Instead::Fields => "write a variable for each field, $(NAME '.AGE')",
            Instead::ComputedGoto => "write a computed goto, :($('DO.' NAME))",
            Instead::OwnFunction => "write a function of your own; only *V is evaluated later",
            Instead::Conversion =>
                "write REPLACE(V) for a string, +V for a number; for an array note a table's keys, in a string or a second table",
            Instead::Remainder => "write M - (M / N) * N",
            Instead::PaddingBefore => "write DUPL(' ',N - SIZE(S)) S, which fails if S is longer",
            Instead::PaddingBehind => "write S DUPL(' ',N - SIZE(S)), which fails if S is longer",
            Instead::Part => "write S TAB(I - 1) LEN(N) . PART",
            Instead::Reversal => "write a loop of S LEN(1) . C = and R = C R, on a copy of S",
            Instead::BreakAgain => "write BREAK(S) ARBNO(LEN(1) BREAK(S))",
            Instead::LoneFence => "only the pattern FENCE is here, without an argument",
            Instead::Identical => "write IDENT(S,T)",
            Instead::Different => "write DIFFER(S,T)",
            Instead::ComesBefore => "write LGT(T,S)",
            Instead::NotBefore => "write ~LGT(T,S)",
            Instead::NotAfter => "write ~LGT(S,T)",
            Instead::ValueIfDifferent => "write DIFFER(A,B) A",
            Instead::Characters => "write the characters themselves, in a literal",
            Instead::ByName => "write $N",
            Instead::Rereading => "REWIND, and read again",
            Instead::Printing => "write OUTPUT = .. at the place in question",
            Instead::DataRecord =>
                "read a record of the job's data: a run depends only on its deck",
            Instead::SmallerUnit => "count in integers of a smaller unit, as cents or thousandths",
            Instead::PatternVariable => "write the variable of this name",
            Instead::Detaching => "write DETACH('INPUT') or DETACH('OUTPUT')",
            Instead::ReturnedName => "return the name, and put $ before the call",
            Instead::Capitals => "write it in capitals",
            Instead::Output => "write OUTPUT",
            Instead::Nothing => "there is nothing like it here",
        }
    }
}

/// What to write instead of a function of this name. Nothing, where no other system has one.
pub fn instead_of_function(name: &[u8]) -> Option<Instead>
    ensures { result ≡ instead_of_function name.now }
{
    match name {
        _ if is_among(name, b"ARRAY COPY ITEM PROTOTYPE") => Some(Instead::Table),
        _ if is_among(name, b"RSORT SORT") => Some(Instead::Sorting),
        _ if is_among(name, b"DATA FIELD") => Some(Instead::Fields),
        _ if is_among(name, b"APPLY ARG LOCAL OPSYN FUNCTION LABEL") => Some(Instead::ComputedGoto),
        _ if is_among(name, b"CODE EVAL") => Some(Instead::OwnFunction),
        _ if is_among(name, b"CONVERT") => Some(Instead::Conversion),
        _ if is_among(name, b"REMDR") => Some(Instead::Remainder),
        _ if is_among(name, b"LPAD") => Some(Instead::PaddingBefore),
        _ if is_among(name, b"RPAD") => Some(Instead::PaddingBehind),
        _ if is_among(name, b"SUBSTR") => Some(Instead::Part),
        _ => instead_of_string_function(name),
    }
}

// Of those that search and compare strings, and further ones.
fn instead_of_string_function(name: &[u8]) -> Option<Instead>
    ensures { result ≡ instead_of_string_function name.now }
{
    match name {
        _ if is_among(name, b"REVERSE") => Some(Instead::Reversal),
        _ if is_among(name, b"BREAKX") => Some(Instead::BreakAgain),
        _ if is_among(name, b"FENCE") => Some(Instead::LoneFence),
        _ if is_among(name, b"LEQ") => Some(Instead::Identical),
        _ if is_among(name, b"LNE") => Some(Instead::Different),
        _ if is_among(name, b"LLT") => Some(Instead::ComesBefore),
        _ if is_among(name, b"LGE") => Some(Instead::NotBefore),
        _ if is_among(name, b"LLE") => Some(Instead::NotAfter),
        _ if is_among(name, b"VDIFFER") => Some(Instead::ValueIfDifferent),
        _ => instead_of_library_function(name),
    }
}

// Of those that reach outside the program.
fn instead_of_library_function(name: &[u8]) -> Option<Instead>
    ensures { result ≡ instead_of_library_function name.now }
{
    let some = b"APPEND BUFFER CLEAR COLLECT DELETE EJECT EXIT FREEZE HOST";
    let others = b"INSERT IO_FINDUNIT LOAD RENAME SERV_LISTEN SETEXIT SSET THAW UNLOAD";
    match name {
        _ if is_among(name, b"CHAR ORD") => Some(Instead::Characters),
        _ if is_among(name, b"VALUE") => Some(Instead::ByName),
        _ if is_among(name, b"BACKSPACE SET") => Some(Instead::Rereading),
        _ if is_among(name, b"DUMP STOPTR TRACE") => Some(Instead::Printing),
        _ if is_among(name, b"DATE TIME") => Some(Instead::DataRecord),
        _ if is_among(name, b"ATAN CHOP COS EXP LN SIN SQRT TAN") => Some(Instead::SmallerUnit),
        _ if is_among(name, some) => Some(Instead::Nothing),
        _ if is_among(name, others) => Some(Instead::Nothing),
        _ => None,
    }
}

/// The same of a keyword, without its `&`.
pub fn instead_of_keyword(name: &[u8]) -> Option<Instead>
    ensures { result ≡ instead_of_keyword name.now }
{
    let patterns = b"ABORT ARB BAL FAIL FENCE REM SUCCEED";
    let some =
        b"ABEND CASE CODE COMPARE DUMP ERRLIMIT ERRTEXT ERRTYPE FATALLIMIT FILE FTRACE GTRACE";
    let others =
        b"LASTFILE LASTLINE LASTNO LINE MAXINT PARM PI PROFILE RTNTYPE STEXEC STFCOUNT TRACE";
    match name {
        _ if is_among(name, patterns) => Some(Instead::PatternVariable),
        _ if is_among(name, b"ALPHABET DIGITS LCASE UCASE") => Some(Instead::Characters),
        _ if is_among(name, b"INPUT OUTPUT") => Some(Instead::Detaching),
        _ if is_among(name, some) => Some(Instead::Nothing),
        _ if is_among(name, others) => Some(Instead::Nothing),
        _ => None,
    }
}

/// The same of a label that has a meaning elsewhere.
pub fn instead_of_label(name: &[u8]) -> Option<Instead>
    ensures { result ≡ instead_of_label name.now }
{
    match name {
        _ if is_among(name, b"NRETURN") => Some(Instead::ReturnedName),
        _ if is_among(name, b"END RETURN FRETURN") => Some(Instead::Capitals),
        _ if is_among(name, b"ABORT CONTINUE SCONTINUE") => Some(Instead::Nothing),
        _ => None,
    }
}

/// The same of a variable that reads or writes elsewhere.
pub fn instead_of_variable(name: &[u8]) -> Option<Instead>
    ensures { result ≡ instead_of_variable name.now }
{
    if is_among(name, b"TERMINAL") {
        Some(Instead::Output)
    } else {
        None
    }
}

// Whether a name is one of the words of a row.
fn is_among(name: &[u8], row: &[u8]) -> bool
    ensures { result ≡ is_among name.now row.now }
{
    row.split(|code| *code == b' ').any(|word| word == name)
}
