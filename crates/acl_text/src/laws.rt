//! Laws over texts and permission lists: each function's contract is one, and its body is empty.
ghost use Rattle.acl_text.specs.Laws.{ReadingSpells, OneList, RefusedOrSpells, ReadsBack, OneForm, OneOrder, AnyOrder, LongReadingSpells, OneLongList, LongRefusedOrSpells, LongReadsBack, OneLongForm, AnyLineOrder, CommentsSayNothing};

/// Reading gives the list that a text spells, and every list that a text spells is read.
pub fn reading_spells()
    ensures { ReadingSpells }
{}

/// A text spells one list at the most.
pub fn one_list()
    ensures { OneList }
{}

/// A text is refused exactly where it spells no list.
pub fn refused_or_spells()
    ensures { RefusedOrSpells }
{}

/// A printed list is read back.
pub fn reads_back()
    ensures { ReadsBack }
{}

/// Two lists with one short form are one.
pub fn one_form()
    ensures { OneForm }
{}

/// A valid list has exactly one canonical order.
pub fn one_order()
    ensures { OneOrder }
{}

/// The texts of a list's entries, in any order, spell the list.
pub fn any_order()
    ensures { AnyOrder }
{}

/// Reading gives the list that a long text spells, and every list that a long text spells is read.
pub fn long_reading_spells()
    ensures { LongReadingSpells }
{}

/// A long text spells one list at the most.
pub fn one_long_list()
    ensures { OneLongList }
{}

/// A long text is refused exactly where it spells no list.
pub fn long_refused_or_spells()
    ensures { LongRefusedOrSpells }
{}

/// A list printed in the long form is read back.
pub fn long_reads_back()
    ensures { LongReadsBack }
{}

/// Two lists with one long form are one.
pub fn one_long_form()
    ensures { OneLongForm }
{}

/// The lines of a list's entries spell the list, in any order, and whatever mask their comments tell of.
pub fn any_line_order()
    ensures { AnyLineOrder }
{}

/// A comment at the end of any line, with or without blanks before it, changes nothing of what a long text says.
pub fn comments_say_nothing()
    ensures { CommentsSayNothing }
{}
