// A trace that is read, replayed and observed.
use std::alloc::AllocError;
use std::test::Fail;
use surf_manifest::read_manifest;
use surf_trace::{Verdict, observe, read_trace, replay, trace_is_read};

const ALONE: &[u8] =
    b"!START_TRANSITION_RULES\n5_0_0_5_0_0 -> 6_1_0_5_0_0\n!END_TRANSITION_RULES\n!START_INIT_STATE\n5_0_0_5_0_0\n!END_INIT_STATE\n";

const TRACE: &[u8] = b"!START_TRACE\n1 0 0 0\n!END_TRACE\n";

#[test]
fn runs_are_replayed(rt: HostRuntime) -> Result<(), Fail> {
    trace_is_read();
    let events = read_trace(rt.alloc(), TRACE)?;
    let (mut world, _names) = read_manifest(rt.alloc(), ALONE)?.into_world(rt.alloc())?;
    assert!(rt; matches!(replay(&mut world, &events), Verdict::Valid));
    Ok(())
}

#[test]
fn states_are_observed(rt: HostRuntime) -> Result<(), Fail> {
    let events = read_trace(rt.alloc(), TRACE)?;
    let (mut world, names) = read_manifest(rt.alloc(), ALONE)?.into_world(rt.alloc())?;
    let states = observe(rt.alloc(), &mut world, &names, &events, 1).map_err(|_| AllocError)?;
    assert!(rt; states.as_slice() == [Some(6)].as_slice());
    Ok(())
}
