// Reading a task file.

ghost use Rattle.std.specs.Prelude.{◌≡◌, [], Some, IfOk, IfErr};
ghost use Rattle.sby_file.specs.Config.{nothing, with_lines};
ghost use Rattle.sby_file.specs.Faults.{faults_of, first, lines_faults};
ghost use Rattle.sby_file.specs.Placed.{placed};
ghost use Rattle.sby_file.specs.Sby.{SbyText};

use crate::config::Config;
use crate::declaration::declaration;
use crate::fault::{SbyFault, SbyKind};
use crate::seen::Seen;
use crate::walk::{Placed, Walk};
use std::alloc::{AllocError, Global};

/// The most bytes of a task file.
const MAX_BYTES: usize = 0x100_0000;

fn fault_at(placed: Placed, kind: SbyKind) -> SbyFault
    ensures { result ≡ record { line = placed.number; kind = kind } }
{
    SbyFault {
        line: placed.number,
        kind,
    }
}

// Reads the lines of a task file.
fn read_lines(alloc: Global, bytes: &[u8]) -> Result<Result<Config, SbyFault>, AllocError>
    ensures text { IfOk result (λ answer. IfOk answer (λ config. (lines_faults bytes.now ≡ []) × (config ≡ with_lines nothing (placed bytes.now)))) }
    ensures fault { IfOk result (λ answer. IfErr answer (λ fault. first (lines_faults bytes.now) ≡ Some fault)) }
{
    let declared = declaration(alloc, Walk::new(bytes))?;
    let mut seen = Seen::new(alloc);
    let mut config = Config::new(alloc);
    let mut walk = Walk::new(bytes);
    'lines: while let Some(placed) = walk.next(alloc)? {
        if let Some(kind) = seen.fault(alloc, &declared, &placed, &walk)? {
            return Ok(Err(fault_at(placed, kind)));
        }
        seen.note(alloc, &placed)?;
        config.add(alloc, placed, &walk)?;
    }
    Ok(Ok(config))
}

/// Reads a task file. The answer is what its lines say, or the first fault: at line 0, that the text has more than 2^24 bytes,
/// whatever they are; else of the first line at fault, the first in the order of `SbyKind`. The outer `Err` is out of memory
/// alone.
pub fn read(alloc: Global, bytes: &[u8]) -> Result<Result<Config, SbyFault>, AllocError>
    ensures text { IfOk result (λ answer. IfOk answer (SbyText bytes.now)) }
    ensures fault { IfOk result (λ answer. IfErr answer (λ fault. first (faults_of bytes.now) ≡ Some fault)) }
{
    if bytes.len() > MAX_BYTES {
        return Ok(Err(SbyFault {
            line: 0,
            kind: SbyKind::Limit,
        }));
    }
    read_lines(alloc, bytes)
}
