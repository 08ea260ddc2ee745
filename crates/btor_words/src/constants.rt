// Words of digits.

ghost use Rattle.std.specs.Prelude.{◌≡◌, ◌⊎◌, ◌≤◌, ◌+◌, ◌-◌, ◌^◌, Err, IfOk, length, replicate};
ghost use Rattle.std.specs.Bool.{beq};
ghost use Rattle.std.specs.List.{list_all};
ghost use Rattle.btor_core.specs.declared.draft.DraftFault.TheVariants.{Full};
ghost use Rattle.btor_core.specs.Fits.{IsWidth};
ghost use Rattle.btor_words.specs.Emitting.{Emits};

use crate::lines::line;
use btor_core::draft::{Draft, DraftFault};
use btor_core::line::{Node, Word};

/// A word that has this digit in each bit.
pub fn filled(draft: &mut Draft, digit: bool, width: u32) -> Result<Word, DraftFault>
    requires width { IsWidth width }
    ensures row { IfOk result (λ r. Emits draft.old draft.new r width 2 (λ vs. replicate width digit)) }
    ensures constants { IfOk result (λ r. draft.new.constants ≡ draft.old.constants) }
    ensures full { result ≡ Err Full → 2 ^ 32 - 1 ≤ length draft.old.lines + 2 }
{
    draft.promise();
    if digit {
        let word = line(draft, width, Node::Ones)?;
        Ok(word)
    } else {
        let word = line(draft, width, Node::Zero)?;
        Ok(word)
    }
}

// Whether each bit is this digit.
fn is_filled(bits: &[bool], digit: bool) -> bool
    ensures { result ≡ list_all (λ b. beq b digit) bits.now }
{
    for bit in bits {
        if *bit != digit {
            return false;
        }
    }
    true
}

// A word of mixed bits.
fn mixed(draft: &mut Draft, bits: &[bool]) -> Result<Word, DraftFault>
    requires width { IsWidth (length bits.now) }
    ensures row { IfOk result (λ r. Emits draft.old draft.new r (length bits.now) 2 (λ vs. bits.now)) }
    ensures constants { IfOk result (λ r. length draft.new.constants ≤ length draft.old.constants + length bits.now) }
    ensures full { result ≡ Err Full → (2 ^ 32 ≤ length draft.old.constants) ⊎ (2 ^ 32 - 1 ≤ length draft.old.lines + 2) }
{
    let word = draft.constant(bits)?;
    draft.promise();
    Ok(word)
}

/// A word that has these bits, the lowest first.
pub fn constant(draft: &mut Draft, bits: &[bool]) -> Result<Word, DraftFault>
    requires width { IsWidth (length bits.now) }
    ensures row { IfOk result (λ r. Emits draft.old draft.new r (length bits.now) 2 (λ vs. bits.now)) }
    ensures constants { IfOk result (λ r. length draft.new.constants ≤ length draft.old.constants + length bits.now) }
    ensures full { result ≡ Err Full → (2 ^ 32 ≤ length draft.old.constants) ⊎ (2 ^ 32 - 1 ≤ length draft.old.lines + 2) }
{
    let width = bits.len() as u32;
    if is_filled(bits, false) {
        let word = filled(draft, false, width)?;
        return Ok(word);
    }
    if is_filled(bits, true) {
        let word = filled(draft, true, width)?;
        return Ok(word);
    }
    let word = mixed(draft, bits)?;
    Ok(word)
}
