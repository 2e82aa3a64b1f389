// A buffer in use: it is made, holds what was put in, in its order, and once cleared takes items again.
use buffer::Buffer;
use std::test::Fail;

#[test]
fn holds_what_was_put_in(rt: HostRuntime) -> Result<(), Fail> {
    let mut few: Buffer<u32, 4> = Buffer::new(rt.alloc())?;
    assert!(rt; few.as_slice().is_empty());
    few.push(5);
    few.add(None);
    few.add(Some(7));
    few.insert(1, 6);
    few.insert(3, 8);
    assert_eq!(rt; few.as_slice(), [5, 6, 7, 8].as_slice());
    few.clear();
    assert!(rt; few.as_slice().is_empty());
    few.push(9);
    assert_eq!(rt; few.as_slice(), [9].as_slice());
    Ok(())
}
