use super::*;
use std::test::Fail;

#[test]
fn bytes_grow_at_their_end(rt: HostRuntime) -> Result<(), Fail> {
    let mut bytes = Bytes::new(rt.alloc());
    assert_eq!(rt; bytes.as_slice(), b"".as_slice());
    bytes.push(b'a')?;
    bytes.append(b"bc")?;
    bytes.append(b"")?;
    assert_eq!(rt; bytes.as_slice(), b"abc".as_slice());
    Ok(())
}

#[test]
fn items_stand_in_the_order_of_their_pushes(rt: HostRuntime) -> Result<(), Fail> {
    let mut list = List::new(rt.alloc());
    for item in [7u32, 9, 8] {
        list.push(item)?;
    }
    assert_eq!(rt; list.len(), 3);
    assert_eq!(rt; list.as_slice(), [7, 9, 8].as_slice());
    list.push(6)?;
    assert_eq!(rt; *list.at(0), 7);
    assert_eq!(rt; list.len(), 4);
    list.set(2, 5);
    assert_eq!(rt; list.as_slice(), [7, 9, 5, 6].as_slice());
    Ok(())
}
