//! Functions that only the other crates call, by rows of `arithmetic.rt`.

use font_decimal::DecimalFault;
use font_fixed::*;

#[test]
fn functions_of_raw_values(rt: HostRuntime) {
    assert!(rt; [product(-1, 0x8000, 16), product(32, -154, 6)] == [-1, -77]);
    assert!(rt; product(0x6000_0000, 0x6000_0000, 30) == -0x7000_0000);
    assert!(rt; [mul_div(32, 64, -154), mul_div(0, -1, 0)] == [-13, -i32::MAX]);
    assert!(rt;
        [low_bits(2147483648), low_bits(-2147483649), low_bits(-1)] == [i32::MIN, i32::MAX, -1]
    );
    assert!(rt; read_bits_16(b"1.99997", 14) == Err(DecimalFault::OutOfRange));
    assert!(rt; read_bits_32(b"-32768.000007", 16) == Ok(i32::MIN));
    assert!(rt; read_bits_64(b"1.", 16) == Err(DecimalFault::Syntax));
}
