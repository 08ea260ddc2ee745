// The bits of a small design: `$initstate`, a wire that nothing drives, and a free bit.

use crate::tests::design_of;
use design_signals::sig_bit::SigBit;
use design_states::input_bits::input_bits;
use design_states::state_bits::{StateBit, state_bits};
use std::test::Fail;

const INITIAL: &str = r"module \t
    wire \first
    wire \open
    wire \y
    cell $initstate $i connect \Y \first end
    connect \y 1'x
end";

#[test]
fn bits_are_listed(rt: HostRuntime) -> Result<(), Fail> {
    let design = design_of(rt.alloc(), INITIAL)?;
    let states = state_bits(rt.alloc(), &design)?;
    assert!(rt;
        states.as_slice() == [StateBit::Signal(SigBit::Wire(0, 0))].as_slice(),
        "other states"
    );
    let inputs = input_bits(rt.alloc(), &design)?;
    assert!(rt;
        inputs.as_slice() == [SigBit::Wire(1, 0), SigBit::Free(0)].as_slice(),
        "other inputs"
    );
    Ok(())
}
