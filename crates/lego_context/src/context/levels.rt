//! New level variables.
ghost use Rattle.std.specs.Prelude.{◌≡◌};
ghost use Rattle.lego_inference.specs.declared.fault.Counted.TheVariants.{Levels};
ghost use Rattle.lego_inference.specs.declared.fault.TypeFault.TheVariants.{Full};
ghost use Rattle.lego_context.specs.Calls.{MakesLevel, Reserves};

use super::Context;
use lego_base::Place;
use lego_inference::{Counted, TypeFault, Universe};
use lego_term::Level;

/// The most level variables of a context.
const MAX_LEVELS: u32 = 1_048_576;

impl Context {
    /// The level of a written `Type` at a place: the next level variable.
    pub fn fresh_level(&mut self, place: Place) -> Result<Level, TypeFault>
        ensures { MakesLevel self.old place self.new result }
    {
        if self.levels >= MAX_LEVELS {
            return Err(full());
        }
        let variable = self.levels;
        let Ok(()) = self.universes.push(Universe { variable, place }) else {
            return Err(TypeFault::Memory);
        };
        self.levels = variable + 1;
        Ok(Level {
            base: Some(variable),
            plus: 0,
        })
    }

    /// Holds at least so many level variables, without a universe. It takes no memory.
    pub fn reserve_levels(&mut self, upto: u32) -> Result<(), TypeFault>
        ensures { Reserves self.old upto self.new result }
    {
        if upto > MAX_LEVELS {
            return Err(full());
        }
        self.levels = self.levels.max(upto);
        Ok(())
    }
}

/// No further level variable can be held.
fn full() -> TypeFault
    ensures { result ≡ Full Levels 1048576 }
{
    TypeFault::Full {
        of: Counted::Levels,
        held: MAX_LEVELS,
    }
}
