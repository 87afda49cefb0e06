//! Laws of the grammar, each the contract of a function that does nothing.
ghost use Rattle.lego_grammar.specs.Laws.{OneReading, OneNesting, OneKind, OneRefusal, Decided};

/// A list of tokens is read as one command at most, where each name has one number.
pub fn readings_are_one()
    ensures { OneReading }
{}

/// Each token of a command has one nesting, however names are numbered.
pub fn nestings_are_one()
    ensures { OneNesting }
{}

/// No list of tokens is both a context command and another command.
pub fn kinds_are_one()
    ensures { OneKind }
{}

/// It is decided whether some command begins with given tokens: so where the first token
/// stands after which no reading exists.
pub fn beginnings_are_decided()
    ensures { Decided }
{}

/// At most one token is the first after which no reading exists, and at most one the first
/// that is nested 501 levels deep.
pub fn refusals_are_one()
    ensures { OneRefusal }
{}
