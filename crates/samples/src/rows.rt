//! The rows of two devices: for each state its power, its wake energy and its latency, 4 bytes each, the lowest first.

/// The rows of a modem: powers 10, 4, 1, wake energies 0, 20, 50 and latencies 0, 2, 9.
pub const MODEM: &[u8] = b"\x0a\0\0\0\0\0\0\0\0\0\0\0\
    \x04\0\0\0\x14\0\0\0\x02\0\0\0\
    \x01\0\0\0\x32\0\0\0\x09\0\0\0";

/// The rows of a receiver: powers 1, 0, wake energies 0, 5 and latencies 0, 0.
pub const RECEIVER: &[u8] = b"\x01\0\0\0\0\0\0\0\0\0\0\0\
    \0\0\0\0\x05\0\0\0\0\0\0\0";
