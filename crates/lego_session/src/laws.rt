//! Laws of runs, each the contract of a function that does nothing.
ghost use Rattle.lego_session.specs.Completeness.{TypedCommandsMeetLimitsAlone};
ghost use Rattle.lego_session.specs.Laws.{StepsHaveOneReply, RunsHaveOneCut, CommandsAreReadInOneWay};

/// A command that reads no term has one reply and leaves one session, want of memory aside.
pub fn steps_have_one_reply()
    ensures { StepsHaveOneReply }
{}

/// The bytes of a script and the place where they begin determine the commands of a run, and what
/// stands behind the last of them.
pub fn runs_have_one_cut()
    ensures { RunsHaveOneCut }
{}

/// The bytes of a command and the names held before it determine which command it is, or where and
/// why it is none, and the names held behind it.
pub fn commands_are_read_in_one_way()
    ensures { CommandsAreReadInOneWay }
{}

/// A command whose terms have typings over the session's context is refused for limits alone: of
/// steps, of sizes, of levels, of what is held, or of memory.
pub fn typed_commands_meet_limits_alone()
    ensures { TypedCommandsMeetLimitsAlone }
{}
