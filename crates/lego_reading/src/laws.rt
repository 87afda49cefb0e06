//! Laws of the explicit reading, each the contract of a function that does nothing.
ghost use Rattle.lego_reading.specs.Readable.{ParsedTermsCanBeRead};
ghost use Rattle.lego_reading.specs.Binders.{ReadCoresKeepBinders};

/// Each written term of a command that stands for tokens within the limits can be read.
pub fn parsed_terms_can_be_read()
    ensures { ParsedTermsCanBeRead }
{}

/// What holds of each binder that a written term says, and of each in the bodies of the entries,
/// holds of each binder of its core.
pub fn read_cores_keep_binders()
    ensures { ReadCoresKeepBinders }
{}
