//! What a check gathers on its way.
ghost use Rattle.std.specs.Prelude.{◌≡◌, ◌+◌, ◌≤◌, ◌++◌, [], IfOk, IfErr, OnOk};
ghost use Rattle.lego_term.specs.Levels.{variable_level};
ghost use Rattle.lego_inference.specs.declared.fault.Counted.TheVariants.{Levels};
ghost use Rattle.lego_inference.specs.declared.fault.TypeFault.TheVariants.{Full};

use crate::fault::{Counted, TypeFault};
use lego_base::Place;
use lego_level::Constraint;
use lego_term::Level;
use std::alloc::{AllocError, Global};

/// The most level variables that are held.
pub(crate) const MAX_LEVELS: u32 = 1_048_576;

/// The constraints that a check has gathered, and the number of level variables that are held
/// together with those of the nodes that it has come to.
#[derive(Drop)]
pub(crate) struct Gathered {
    pub(crate) constraints: Vec<Constraint>,
    pub(crate) levels: u32,
    ghost within: { levels ≤ 1048576 },
}

impl Gathered {
    ghost use Rattle.lego_inference.specs.private.Gathering.{asked_at, asked_of_sort};

    /// Nothing yet, where so many level variables are held.
    pub(crate) fn new(alloc: Global, levels: u32) -> Gathered
        requires { levels ≤ 1048576 }
        ensures constraints { result.constraints.items ≡ [] }
        ensures levels { result.levels ≡ levels }
    {
        Gathered {
            constraints: Vec::new(alloc),
            levels,
        }
    }

    /// The level variable of the next node.
    pub(crate) fn take_level(&mut self) -> Result<Level, TypeFault>
        ensures level { IfOk result (λ level. level ≡ variable_level self.old.levels) }
        ensures next { OnOk result (self.new.levels ≡ self.old.levels + 1) }
        ensures fault { IfErr result (λ fault. fault ≡ Full Levels 1048576) }
        ensures full { IfErr result (λ fault. 1048576 ≤ self.old.levels) }
        ensures constraints { self.new.constraints ≡ self.old.constraints }
    {
        if self.levels >= MAX_LEVELS {
            return Err(TypeFault::Full {
                of: Counted::Levels,
                held: MAX_LEVELS,
            });
        }
        let level = Level {
            base: Some(self.levels),
            plus: 0,
        };
        self.levels += 1;
        Ok(level)
    }

    /// Adds that the one level is at most the other.
    pub(crate) fn ask(&mut self, low: Level, high: Level, place: Place) -> Result<(), AllocError>
        ensures added { OnOk result (self.new.constraints.items ≡ self.old.constraints.items ++ asked_at low high place) }
        ensures levels { self.new.levels ≡ self.old.levels }
    {
        let place = Some(place);
        self.constraints.push(Constraint { low, high, place })?;
        Ok(())
    }

    /// Adds that the sort, a universe or `Prop`, is at most the level.
    pub(crate) fn bound(
        &mut self,
        sort: Option<Level>,
        level: Level,
        place: Place,
    ) -> Result<(), AllocError>
        ensures added { OnOk result (self.new.constraints.items ≡ self.old.constraints.items ++ asked_of_sort sort level place) }
        ensures levels { self.new.levels ≡ self.old.levels }
    {
        match sort {
            None => Ok(()),
            Some(low) => self.ask(low, level, place),
        }
    }
}
