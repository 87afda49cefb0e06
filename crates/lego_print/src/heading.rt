//! The numbers and the names of refusals.
ghost use Rattle.std.specs.Prelude.{◌≡◌};
ghost use Rattle.lego_print.specs.Headings.{number_of, name_of};

/// Why a command, a text or an import is refused.
#[derive(Debug, Clone, Copy, PartialEq, Eq)]
pub enum Heading {
    /// A byte that begins no token.
    BadByte,
    /// A comment that does not end.
    OpenComment,
    /// A name of more than 255 bytes.
    LongName,
    /// A numeral above 1,000,000.
    BigLevel,
    /// The first token after which no reading exists.
    Unexpected,
    /// A token of nesting 501.
    TooDeep,
    /// A command without its `;`.
    Unended,
    /// A command of more than 65,536 bytes.
    LongCommand,
    /// More than 1,048,576 names.
    NamesFull,
    /// A name that no entry has.
    UnknownName,
    /// A number that no goal has.
    UnknownGoal,
    /// A name that an entry or a hypothesis has.
    NameInUse,
    /// A term where a type is wanted, whose rule type is no sort.
    NotAType,
    /// A function of an application that has no product for its type.
    NotAFunction,
    /// A term that is projected and has no Sigma type.
    NotAPair,
    /// A type that is not the wanted one.
    Mismatch,
    /// Constraints of levels with a cycle.
    Universe,
    /// More steps than the limit.
    Budget,
    /// A term over a limit of size or depth.
    TooLarge,
    /// A level above 1,000,000.
    LevelTooBig,
    /// More entries or level variables than the limit.
    Full,
    /// A hole in its own solution.
    Circular,
    /// A written type of a pair that is no Sigma type.
    NotSigma,
    /// Two terms that do not match.
    Clash,
    /// A hole in the term that it is matched with.
    Occurs,
    /// A variable that a hole can't name.
    Scope,
    /// A hole that is not applied to different variables.
    HigherOrder,
    /// A solution that is refused.
    Solution,
    /// A hole that stays without a solution.
    Unsolved,
    /// A term that fits the goal with no number of arguments.
    NoFit,
    /// More names than products.
    CannotIntro,
    /// No hypothesis that fits the goal.
    NoHypothesis,
    /// Goals are left.
    GoalsOpen,
    /// A number that no goal left has, or no goal left.
    NoGoal,
    /// No proof is open.
    NoProof,
    /// A proof is open.
    InProof,
    /// A proof without a name.
    NoName,
    /// More steps are to be undone than are held.
    TooFar,
    /// A text that is no development.
    NotDevelopment,
    /// An entry of a development that is not valid.
    IllTyped,
    /// A check of a development over the limit.
    Costly,
    /// Scripts that import one another.
    ImportCycle,
    /// A name that the library does not hold.
    NoModule,
    /// A script that does not begin with its name.
    WrongModule,
}

impl Heading {
    /// The number, from 1 to 44.
    pub fn number(self) -> u8
        ensures { result ≡ number_of self }
    {
        match self {
            Heading::BadByte => 1,
            Heading::OpenComment => 2,
            Heading::LongName => 3,
            Heading::BigLevel => 4,
            Heading::Unexpected => 5,
            Heading::TooDeep => 6,
            Heading::Unended => 7,
            Heading::LongCommand => 8,
            Heading::NamesFull => 9,
            Heading::UnknownName => 10,
            Heading::UnknownGoal => 11,
            Heading::NameInUse => 12,
            Heading::NotAType => 13,
            Heading::NotAFunction => 14,
            Heading::NotAPair => 15,
            Heading::Mismatch => 16,
            Heading::Universe => 17,
            Heading::Budget => 18,
            Heading::TooLarge => 19,
            Heading::LevelTooBig => 20,
            Heading::Full => 21,
            Heading::Circular => 22,
            Heading::NotSigma => 23,
            Heading::Clash => 24,
            Heading::Occurs => 25,
            Heading::Scope => 26,
            Heading::HigherOrder => 27,
            Heading::Solution => 28,
            Heading::Unsolved => 29,
            Heading::NoFit => 30,
            Heading::CannotIntro => 31,
            Heading::NoHypothesis => 32,
            Heading::GoalsOpen => 33,
            Heading::NoGoal => 34,
            Heading::NoProof => 35,
            Heading::InProof => 36,
            Heading::NoName => 37,
            Heading::TooFar => 38,
            Heading::NotDevelopment => 39,
            Heading::IllTyped => 40,
            Heading::Costly => 41,
            Heading::ImportCycle => 42,
            Heading::NoModule => 43,
            Heading::WrongModule => 44,
        }
    }

    /// The name.
    pub fn name(self) -> &'static [u8]
        ensures { result.now ≡ name_of self }
    {
        match self {
            Heading::BadByte => b"BadByte",
            Heading::OpenComment => b"OpenComment",
            Heading::LongName => b"LongName",
            Heading::BigLevel => b"BigLevel",
            Heading::Unexpected => b"Unexpected",
            Heading::TooDeep => b"TooDeep",
            Heading::Unended => b"Unended",
            Heading::LongCommand => b"LongCommand",
            Heading::NamesFull => b"NamesFull",
            Heading::UnknownName => b"UnknownName",
            Heading::UnknownGoal => b"UnknownGoal",
            Heading::NameInUse => b"NameInUse",
            Heading::NotAType => b"NotAType",
            Heading::NotAFunction => b"NotAFunction",
            Heading::NotAPair => b"NotAPair",
            Heading::Mismatch => b"Mismatch",
            Heading::Universe => b"Universe",
            Heading::Budget => b"Budget",
            Heading::TooLarge => b"TooLarge",
            Heading::LevelTooBig => b"LevelTooBig",
            Heading::Full => b"Full",
            Heading::Circular => b"Circular",
            Heading::NotSigma => b"NotSigma",
            Heading::Clash => b"Clash",
            Heading::Occurs => b"Occurs",
            Heading::Scope => b"Scope",
            Heading::HigherOrder => b"HigherOrder",
            Heading::Solution => b"Solution",
            Heading::Unsolved => b"Unsolved",
            Heading::NoFit => b"NoFit",
            Heading::CannotIntro => b"CannotIntro",
            Heading::NoHypothesis => b"NoHypothesis",
            Heading::GoalsOpen => b"GoalsOpen",
            Heading::NoGoal => b"NoGoal",
            Heading::NoProof => b"NoProof",
            Heading::InProof => b"InProof",
            Heading::NoName => b"NoName",
            Heading::TooFar => b"TooFar",
            Heading::NotDevelopment => b"NotDevelopment",
            Heading::IllTyped => b"IllTyped",
            Heading::Costly => b"Costly",
            Heading::ImportCycle => b"ImportCycle",
            Heading::NoModule => b"NoModule",
            Heading::WrongModule => b"WrongModule",
        }
    }
}
