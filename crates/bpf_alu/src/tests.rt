//! Rows worked out by hand from RFC 9669.
use crate::{Op, Order, Test, alu32, alu64, compare32, compare64, extend, swap};

const MAX: u64 = 0xffff_ffff_ffff_ffff;

const MAX_32: u64 = 0xffff_ffff;

/// 2^63 and 2^31, which are the least signed numbers of their widths.
const TOP: u64 = 0x8000_0000_0000_0000;

const TOP_32: u64 = 0x8000_0000;

/// An operation, its target and source, and what it gives at 64 and at 32 bits.
const OPERATIONS: [(Op, u64, u64, u64, u64); 46] = [
    (Op::Add, MAX, 1, 0, 0),
    (Op::Add, TOP_32 - 1, 1, TOP_32, TOP_32),
    (Op::Add, TOP_32, TOP_32, 0x1_0000_0000, 0),
    (Op::Sub, 0, 1, MAX, MAX_32),
    (Op::Sub, TOP, 1, TOP - 1, MAX_32),
    (Op::Mul, TOP, 2, 0, 0),
    (Op::Mul, MAX, MAX, 1, 1),
    (Op::Mul, TOP_32, 2, 0x1_0000_0000, 0),
    (Op::Div, 7, 0, 0, 0),
    (Op::Div, MAX, 2, TOP - 1, TOP_32 - 1),
    (Op::Div, MAX, TOP, 1, 0),
    (Op::Sdiv, 7, 0, 0, 0),
    (Op::Sdiv, TOP, MAX, TOP, 0),
    (Op::Sdiv, TOP_32, MAX, 0xffff_ffff_8000_0000, TOP_32),
    (Op::Sdiv, MAX - 6, 2, MAX - 2, MAX_32 - 2),
    (Op::Sdiv, 7, MAX - 1, MAX - 2, MAX_32 - 2),
    (Op::Or, TOP, 1, TOP + 1, 1),
    (Op::Or, TOP_32, TOP_32 - 1, MAX_32, MAX_32),
    (Op::And, MAX, TOP, TOP, 0),
    (Op::And, MAX, TOP_32, TOP_32, TOP_32),
    (Op::Lsh, 1, 65, 2, 2),
    (Op::Lsh, 1, 63, TOP, TOP_32),
    (Op::Lsh, 1, 32, 0x1_0000_0000, 1),
    (Op::Rsh, TOP, 63, 1, 0),
    (Op::Rsh, TOP_32, 31, 1, 1),
    (Op::Rsh, MAX, 64, MAX, MAX_32),
    (Op::Neg, 0, 5, 0, 0),
    (Op::Neg, 1, 5, MAX, MAX_32),
    (Op::Neg, TOP, 5, TOP, 0),
    (Op::Neg, TOP_32, 5, 0xffff_ffff_8000_0000, TOP_32),
    (Op::Mod, 7, 0, 7, 7),
    (Op::Mod, 0xffff_ffff_0000_0007, 0, 0xffff_ffff_0000_0007, 7),
    (Op::Mod, MAX, 10, 5, 5),
    (Op::Smod, MAX, 0, MAX, MAX_32),
    (Op::Smod, TOP, MAX, 0, 0),
    (Op::Smod, TOP_32, MAX, 0, 0),
    (Op::Smod, MAX - 12, 3, MAX, MAX_32),
    (Op::Smod, 13, MAX - 2, 1, 1),
    (Op::Xor, MAX, MAX, 0, 0),
    (Op::Xor, TOP, MAX, TOP - 1, MAX_32),
    (Op::Mov, 0, MAX, MAX, MAX_32),
    (Op::Mov, 1, TOP, TOP, 0),
    (Op::Arsh, TOP, 63, MAX, 0),
    (Op::Arsh, TOP_32, 31, 1, MAX_32),
    (Op::Arsh, MAX, 1, MAX, MAX_32),
    (Op::Arsh, TOP_32 - 1, 65, 0x3fff_ffff, 0x3fff_ffff),
];

#[test]
fn operations(rt: HostRuntime) {
    for (op, target, source, at_64, at_32) in OPERATIONS {
        assert_eq!(rt;
            alu64(op, target, source),
            at_64,
            "{op:?} of {target:x} and {source:x} at 64 bits"
        );
        assert_eq!(rt;
            alu32(op, target, source),
            at_32,
            "{op:?} of {target:x} and {source:x} at 32 bits"
        );
    }
}

/// A test, its two registers, and whether it holds at 64 and at 32 bits.
const COMPARISONS: [(Test, u64, u64, bool, bool); 26] = [
    (Test::Eq, MAX, MAX, true, true),
    (Test::Eq, 0x1_0000_0000, 0, false, true),
    (Test::Gt, 0, 0, false, false),
    (Test::Gt, TOP, TOP - 1, true, false),
    (Test::Ge, 0, 0, true, true),
    (Test::Ge, TOP_32 - 1, TOP_32, false, false),
    (Test::Set, 1, 2, false, false),
    (Test::Set, TOP, MAX, true, false),
    (Test::Set, TOP_32, TOP_32 + 1, true, true),
    (Test::Ne, MAX, MAX, false, false),
    (Test::Ne, 0x1_0000_0000, 0, true, false),
    (Test::Sgt, 0, 0, false, false),
    (Test::Sgt, 0, MAX, true, true),
    (Test::Sgt, TOP_32, TOP_32 - 1, true, false),
    (Test::Sge, MAX, MAX, true, true),
    (Test::Sge, TOP, 0, false, true),
    (Test::Lt, 0, 0, false, false),
    (Test::Lt, TOP - 1, TOP, true, false),
    (Test::Le, 1, 1, true, true),
    (Test::Le, 1, 0, false, false),
    (Test::Slt, 0, 0, false, false),
    (Test::Slt, TOP_32, 0, false, true),
    (Test::Slt, TOP, TOP - 1, true, false),
    (Test::Sle, 1, 1, true, true),
    (Test::Sle, MAX, 0, true, true),
    (Test::Sle, 0, MAX, false, false),
];

#[test]
fn comparisons(rt: HostRuntime) {
    for (test, left, right, at_64, at_32) in COMPARISONS {
        assert_eq!(rt;
            compare64(test, left, right),
            at_64,
            "{test:?} of {left:x} and {right:x} at 64 bits"
        );
        assert_eq!(rt;
            compare32(test, left, right),
            at_32,
            "{test:?} of {left:x} and {right:x} at 32 bits"
        );
    }
}

/// A value, and what its low 8, 16 and 32 bits extend to.
const EXTENSIONS: [(u64, u64, u64, u64); 8] = [
    (0, 0, 0, 0),
    (0x7f, 0x7f, 0x7f, 0x7f),
    (0x80, 0xffff_ffff_ffff_ff80, 0x80, 0x80),
    (0x8000, 0, 0xffff_ffff_ffff_8000, 0x8000),
    (TOP_32 - 1, MAX, MAX, TOP_32 - 1),
    (TOP_32, 0, 0, 0xffff_ffff_8000_0000),
    (TOP, 0, 0, 0),
    (MAX, MAX, MAX, MAX),
];

#[test]
fn extensions(rt: HostRuntime) {
    for (value, from_8, from_16, from_32) in EXTENSIONS {
        assert_eq!(rt; extend(value, 8), from_8, "{value:x}");
        assert_eq!(rt; extend(value, 16), from_16, "{value:x}");
        assert_eq!(rt; extend(value, 32), from_32, "{value:x}");
    }
}

/// An order, and what it makes of 16, 32 and 64 bits of 0x0102030405060708.
const ORDERS: [(Order, u64, u64, u64); 3] = [
    (Order::ToLittle, 0x0708, 0x0506_0708, 0x0102_0304_0506_0708),
    (Order::ToBig, 0x0807, 0x0807_0605, 0x0807_0605_0403_0201),
    (Order::Swap, 0x0807, 0x0807_0605, 0x0807_0605_0403_0201),
];

#[test]
fn orders(rt: HostRuntime) {
    let value = 0x0102_0304_0506_0708;
    for (order, of_16, of_32, of_64) in ORDERS {
        assert_eq!(rt; swap(order, value, 16), of_16, "{order:?}");
        assert_eq!(rt; swap(order, value, 32), of_32, "{order:?}");
        assert_eq!(rt; swap(order, value, 64), of_64, "{order:?}");
    }
}
