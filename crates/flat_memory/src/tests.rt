use super::*;
use bpf_insn::Size;
use std::test::Fail;

#[test]
fn moves_numbers_of_each_size(rt: HostRuntime) -> Result<(), Fail> {
    let value = 0x0102_0304_0506_0708;
    // size, what is read back, what stands at places 2 and 3
    let rows = [
        (Size::Byte, 0x08, 0x08, 0xff),
        (Size::Half, 0x0708, 0x08, 0x07),
        (Size::Word, 0x0506_0708, 0x08, 0x07),
        (Size::Double, 0x0102_0304_0506_0708, 0x08, 0x07),
    ];
    for (size, read, low, next) in rows {
        let mut bytes = [0xff; 11];
        put_number(&mut bytes, 2, size, value);
        assert_eq!(rt; number(&bytes, 2, size), read);
        assert_eq!(rt;
            (bytes[1], bytes[2], bytes[3], bytes[10]),
            (0xff, low, next, 0xff)
        );
    }
    Ok(())
}
