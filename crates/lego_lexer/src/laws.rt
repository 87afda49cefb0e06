//! Laws of the definitions, as contracts of functions that do nothing.
ghost use Rattle.lego_lexer.specs.Laws.{TokensAreUnique, FaultsAreUnique, FaultsExcludeTokens, CutsAreUnique, ScriptsAreUnique, ScriptsAreCut, ScriptsGoOn, FrontsStay, EndsStay, PiecesAreJoined};

/// Bytes at a place have at most one list of tokens, and at most one first fault, and not both
/// tokens within the limits and a fault.
pub fn tokens_are_unique()
    ensures tokens { TokensAreUnique }
    ensures faults { FaultsAreUnique }
    ensures either { FaultsExcludeTokens }
{}

/// What stands first in bytes is one cut, and a script has at most one list of commands.
pub fn cuts_are_unique()
    ensures cuts { CutsAreUnique }
    ensures scripts { ScriptsAreUnique }
{}

/// Each script is cut into commands: what stands first, and the commands behind it. Commands that
/// have ended in a front of a script are the first of its commands.
pub fn scripts_are_cut()
    ensures some { ScriptsAreCut }
    ensures on { ScriptsGoOn }
    ensures fronts { FrontsStay }
{}

/// The edges of pieces don't matter: a command that has ended for a cutter is what `cut` answers
/// for these and any further bytes, and the cuts of pieces are those of the joined bytes.
pub fn pieces_are_joined()
    ensures stay { EndsStay }
    ensures joined { PiecesAreJoined }
{}
