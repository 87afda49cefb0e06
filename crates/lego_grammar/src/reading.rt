//! Laws of explicit reading and of development texts, each the contract of a function that does
//! nothing.
ghost use Rattle.lego_grammar.specs.ReadingLaws.{OneCore, RefusalsExcludeReading, OneReadingRefusal, OneListOfDeclarations, OneListOfEntries, OneContent};

/// A written term is read as at most one core.
pub fn cores_are_one()
    ensures { OneCore }
{}

/// A written term that is refused while it is read isn't read within the limits.
pub fn refusals_exclude_reading()
    ensures { RefusalsExcludeReading }
{}

/// A written term is refused while it is read in at most one way.
pub fn reading_refusals_are_one()
    ensures { OneReadingRefusal }
{}

/// A text is at most one list of declarations, where each text of a name has one number.
pub fn declarations_are_one()
    ensures { OneListOfDeclarations }
{}

/// Declarations are read as at most one list of entries.
pub fn declared_entries_are_one()
    ensures { OneListOfEntries }
{}

/// A text denotes at most one list of entries, up to their numbers and the names of binders.
pub fn denoted_entries_are_one()
    ensures { OneContent }
{}
