//! The faults that end a job.
ghost use Rattle.std.specs.Prelude.{◌≡◌};
ghost use Rattle.sno_text.specs.Faults.{fault_name};

/// Why a job ends before its program does.
#[derive(Clone, Copy, PartialEq, Eq)]
pub enum Fault {
    /// A value of a type that can't stand there.
    WrongType,
    /// A number out of range, a zero divisor or a negative exponent.
    Arithmetic,
    /// The null string where there must be a name or characters.
    Null,
    /// A call of no function.
    Function,
    /// A prototype that DEFINE can't read.
    Prototype,
    /// A keyword that there isn't, or a value that it can't have.
    Keyword,
    /// A call of a function whose entry label no statement has.
    Entry,
    /// A negative number in a pattern.
    Negative,
    /// A string that is longer than `&MAXLNGTH`.
    Length,
    /// A return where no function is called.
    Level,
    /// A computed goto that has no label.
    Goto,
    /// A goto to a label that no statement has.
    Label,
    /// Too many calls in one another, or a pattern too deep.
    Depth,
    /// A format that OUTPUT can't read, or a number of characters that INPUT can't.
    Format,
    /// No unit, or one out of range.
    BadUnit,
}

impl Fault {
    /// The word for it in a printout.
    pub fn name(self) -> &'static str
        ensures { result.now ≡ fault_name self }
    {
        match self {
            Fault::WrongType => "TYPE",
            Fault::Arithmetic => "ARITH",
            Fault::Null => "NULL",
            Fault::Function => "FUNCTION",
            Fault::Prototype => "PROTOTYPE",
            Fault::Keyword => "KEYWORD",
            Fault::Entry => "ENTRY",
            Fault::Negative => "NEGATIVE",
            Fault::Length => "LENGTH",
            Fault::Level => "LEVEL",
            Fault::Goto => "GOTO",
            Fault::Label => "LABEL",
            Fault::Depth => "DEPTH",
            Fault::Format => "FORMAT",
            Fault::BadUnit => "UNIT",
        }
    }
}
