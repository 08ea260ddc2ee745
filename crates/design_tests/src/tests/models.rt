// The model of a register that turns over in each cycle, with an assertion on what it takes next.

use crate::tests::flat_of;
use std::test::Fail;
use test_designs::T;
use word_model::build::build;

#[test]
fn register_is_modelled(rt: HostRuntime) -> Result<(), Fail> {
    let flat = flat_of(rt.alloc(), T)?;
    let model = build(rt.alloc(), &flat)?;
    assert!(rt; model.nodes() == 1 && model.registers() == 1 && model.inputs().len() == 1);
    assert!(rt; model.starts() == [Some(false)].as_slice());
    assert!(rt;
        model.asserts().len() == 1 && model.assumes().is_empty() && model.covers().is_empty()
    );
    Ok(())
}
