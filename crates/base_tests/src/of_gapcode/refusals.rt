//! Refused memory. A run of this test can refuse any one growth: then one of two calls is refused and the other is
//! answered. If none is refused both are.

ghost use Rattle.gapcode.specs.Lists.{AscendsFrom};

use super::*;

// Whether both calls were answered, or just one was refused for want of memory.
fn are_answered(first: Result<bool, CodeError>, second: Result<bool, CodeError>) -> bool {
    matches!(
        (first, second),
        (Ok(true), Ok(true))
            | (Err(CodeError::Memory), Ok(true))
            | (Ok(true), Err(CodeError::Memory))
    )
}

// Whether an empty vector and two others are built as three lists.
fn are_built_of(alloc: Global, second: Vec<u32>, third: Vec<u32>) -> Result<bool, CodeError>
    requires second { AscendsFrom 0 second.items }
    requires third { AscendsFrom 0 third.items }
{
    let lists = Lists::build(alloc, &[Vec::new(alloc), second, third])?;
    Ok(lists.len() == 3 && lists.bytes() == THREE.as_slice())
}

// Whether lists are built of vectors.
fn are_built(alloc: Global) -> Result<bool, CodeError> {
    let second = Vec::from_slice(alloc, &[0])?;
    are_built_of(alloc, second, Vec::from_slice(alloc, &[1])?)
}

// Whether three lists are read, and one with a great element is written and read.
fn are_read_back(alloc: Global) -> Result<bool, CodeError> {
    Ok(three_are_read(alloc)? && is_spelled(alloc, &[4_294_967_294], &FAR)?)
}

#[test]
fn calls_where_memory_is_refused(rt: HostRuntime) {
    let alloc = rt.alloc();
    let answered = [
        are_answered(are_built(alloc), are_built(alloc)),
        are_answered(are_read_back(alloc), are_read_back(alloc)),
        are_answered(are_joined(alloc), are_joined(alloc)),
        are_answered(far_are_kept(alloc), far_are_kept(alloc)),
        are_answered(come_back(alloc, &[1, u64::MAX]), come_back(alloc, &[7])),
    ];
    assert_eq!(rt; answered, [true; 5]);
}
