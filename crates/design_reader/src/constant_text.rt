// Constants, where their digits count.

ghost use Rattle.design_reader.specs.Drafts.{Gives};
ghost use Rattle.design_reader.specs.Grammar.{needs};
ghost use Rattle.design_reader.specs.declared.fault.ReadFaultKind.TheVariants.{Syntax};
ghost use Rattle.rtlil_constant.specs.Constants.{constant_of};

use crate::fault::ReadFaultKind;
use crate::stop::Stop;
use rtlil_constant::constant::{Constant, ConstantFault, parse};

/// A constant with at least `least` digits after its width; one whose digits no memory holds is out of memory.
pub fn constant(least: usize, word: &[u8]) -> Result<Constant<'_>, Stop>
    ensures { Gives (λ digits. digits) result (needs Syntax (constant_of least word.now)) }
{
    match parse(least, word) {
        Ok(constant) => Ok(constant),
        Err(ConstantFault::Syntax) => Err(Stop::Fault(ReadFaultKind::Syntax)),
        Err(ConstantFault::TooLong) => Err(Stop::Memory),
    }
}
