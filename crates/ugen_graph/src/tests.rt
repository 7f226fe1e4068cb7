//! Slots: what no clause says. What is expected is worked out by hand.

use crate::Graph;
use std::test::Fail;
use ugen_names::UgenKind;

/// The node of a unit generator that was taken out is the next to be used.
#[test]
fn a_freed_node_is_used_again(rt: HostRuntime) -> Result<(), Fail> {
    let alloc = rt.alloc();
    let mut graph = Graph::new(alloc)?;
    let first = graph.add(alloc, UgenKind::Step, 1, 3)?;
    assert_eq!(rt; first, 2);
    graph.remove(first);
    let second = graph.add(alloc, UgenKind::Gain, 1, 4)?;
    assert_eq!(rt; second, 2);
    let third = graph.add(alloc, UgenKind::Noise, 1, 5)?;
    assert_eq!(rt; third, 3);
    Ok(())
}
