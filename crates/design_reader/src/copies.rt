// Equal items.

ghost use Rattle.std.specs.Prelude.{◌≡◌, ◌++◌, replicate, OnOk};

use std::alloc::AllocError;

/// Adds an item this many times.
pub fn push_copies<T: Copy>(items: &mut Vec<T>, item: T, count: usize) -> Result<(), AllocError>
    ensures { OnOk result (items.new.items ≡ items.old.items ++ replicate count item) }
{
    for _ in 0..count {
        let Ok(()) = items.push(item) else {
            return Err(AllocError);
        };
    }
    Ok(())
}
