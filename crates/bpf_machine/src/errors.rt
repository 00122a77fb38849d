//! Answers of helpers that refuse: the kernel's error numbers, negative.

/// Not permitted.
pub(crate) const EPERM: i64 = -1;
/// No such entry.
pub(crate) const ENOENT: i64 = -2;
/// Too big.
pub(crate) const E2BIG: i64 = -7;
/// Is there already.
pub(crate) const EEXIST: i64 = -17;
/// Not a valid argument.
pub(crate) const EINVAL: i64 = -22;
