//! Laws of the texts, each the contract of a function that does nothing.
ghost use Rattle.lego_print.specs.Denoted.{PrintedDevelopmentsReadBack};
ghost use Rattle.lego_print.specs.Showable.{ValidEntriesAreClosed, PrintedDevelopmentsDenote};
ghost use Rattle.lego_print.specs.ReadBack.{PrintedNamesAreFree, PrintedNamesAreNames, PrintedTermsReadBack};

/// A printed name is no name of an entry in scope and no printed name of an enclosing local
/// variable.
pub fn printed_names_are_free()
    ensures { PrintedNamesAreFree }
{}

/// The printed name of a wished name that is a name is a name.
pub fn printed_names_are_names()
    ensures { PrintedNamesAreNames }
{}

/// A printed term without holes reads back, by the lexer, the grammar and the explicit reading,
/// as the term at the levels shown, up to the names of binders.
pub fn printed_terms_read_back()
    ensures { PrintedTermsReadBack }
{}

/// The printed text of a development denotes its entries at the levels shown, and has the form of
/// a development.
pub fn printed_developments_read_back()
    ensures { PrintedDevelopmentsReadBack }
{}

/// The printed text of a development of entries that are closed over those before them, with names
/// that the numbering holds, denotes these entries at the levels shown under a numbering that goes
/// on from the given one.
pub fn printed_developments_denote()
    ensures { PrintedDevelopmentsDenote }
{}

/// The entries of a list that is valid at some assignment have different numbers, and their types
/// and bodies are closed over the entries before them.
pub fn valid_entries_are_closed()
    ensures { ValidEntriesAreClosed }
{}
