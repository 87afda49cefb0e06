//! Commands cut from the bytes of a script.
ghost use Rattle.std.specs.Prelude.{◌≤◌, drop, length};
ghost use Rattle.lego_lexer.specs.Commands.{IsCut};

use crate::cutter::{Cutter, Fed};
use crate::token::Cut;

/// What stands first in the bytes from an index on: a command, which ends at the first `;`
/// outside comments, or why there is none.
pub fn cut(bytes: &[u8], from: usize) -> Cut
    requires { from ≤ length bytes.now }
    ensures { IsCut from (drop from bytes.now) result }
{
    let mut cutter = Cutter::at(from);
    match cutter.scan(&bytes[from..]) {
        Fed::Ended { used: _, cut } => cut,
        Fed::More => cutter.end(),
    }
}
