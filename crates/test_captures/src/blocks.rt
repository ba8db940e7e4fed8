use crate::asserts::{assert_given, assert_read};
use block_source::Block;
use outside_io::{Failed, Pieces};
use std::test::Fail;

#[test]
fn small_reads_are_served_by_one_call(rt: HostRuntime) -> Result<(), Fail> {
    // The second call of the source fails.
    let mut block = Block::over(Pieces::with(rt.alloc(), b"abcde", &[4], &[1])?);
    let mut buf = [0; 3];
    assert_given(&rt, &mut block, &mut buf, b"abc");
    assert_given(&rt, &mut block, &mut buf, b"d");
    assert_read(&rt, &mut block, &mut buf, Err(Failed));
    assert_given(&rt, &mut block, &mut buf, b"e");
    assert_read(&rt, &mut block, &mut buf, Ok(0));
    let mut source = block.back();
    assert_read(&rt, &mut source, &mut buf, Ok(0));
    Ok(())
}
