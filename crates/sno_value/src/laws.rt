//! Laws of values: each function's contract is one, and its body is empty.
ghost use Rattle.sno_value.specs.Laws.{NumbersReadBack, NullIsNeutral, TextsAreJoined, JoinsAssociate, IdenticalAreEqual, EqualAreIdentical, QuotientsTruncate};

/// The text of an integer is read back as its number.
pub fn numbers_read_back()
    ensures { NumbersReadBack }
{}

/// The null string on either side gives the other value, unchanged and of its type.
pub fn null_is_neutral()
    ensures { NullIsNeutral }
{}

/// Strings that are not too long together are joined, null or not.
pub fn texts_are_joined()
    ensures { TextsAreJoined }
{}

/// Of three strings either two may be joined first.
pub fn joins_associate()
    ensures { JoinsAssociate }
{}

/// Values that are identical are equal, and no patterns.
pub fn identical_are_equal()
    ensures { IdenticalAreEqual }
{}

/// Each value that is no pattern is identical with itself.
pub fn equal_are_identical()
    ensures { EqualAreIdentical }
{}

/// A quotient is rounded toward zero: what is left is less than the divisor, and the quotient takes no more than there is.
pub fn quotients_truncate()
    ensures { QuotientsTruncate }
{}
