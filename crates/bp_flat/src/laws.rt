//! Laws of the definitions. These functions do nothing: their contracts are the laws.
ghost use Rattle.bp_flat.specs.StandsFor.{StepsAlike};

use crate::code::Code;

/// Proves that compiled code and its program step alike: each instruction at its number is one
/// move, and each move one instruction. An assumption of 0 is neither.
pub fn steps_alike(code: &Code)
    ensures { StepsAlike code.now code.now.tree }
{
    code.is_of_a_program();
}
