//! Worked numbers.
use super::*;

fn decimal(units: i128, digits: u8) -> Result<Decimal, NumFault> {
    Ok(Decimal { units, digits })
}

#[test]
fn reads_decimals(rt: HostRuntime) {
    let rows = [
        ("0", decimal(0, 0)),
        ("-0", decimal(0, 0)),
        ("0.000", decimal(0, 0)),
        ("0e999", decimal(0, 0)),
        ("007", decimal(7, 0)),
        ("1.", decimal(1, 0)),
        (".5", decimal(5, 1)),
        ("+1", decimal(1, 0)),
        ("-2.50", decimal(-25, 1)),
        ("1.0", decimal(1, 0)),
        ("1e-3", decimal(1, 3)),
        ("1E+2", decimal(100, 0)),
        ("2.50e1", decimal(25, 0)),
        ("12.5e-002", decimal(125, 3)),
        ("100e-2", decimal(1, 0)),
        ("1e17", decimal(100_000_000_000_000_000, 0)),
        ("999999999999999999", decimal(999_999_999_999_999_999, 0)),
        ("0.000000000000000001", decimal(1, 18)),
        (
            "1.0000000000000000010",
            decimal(1_000_000_000_000_000_001, 18),
        ),
        (
            "-999999999999999999.999999999999999999",
            decimal(-999_999_999_999_999_999_999_999_999_999_999_999, 18),
        ),
    ];
    for (text, want) in rows {
        assert!(rt; read_decimal(text.as_bytes()) == want, "at {text}");
    }
}

#[test]
fn refuses_texts(rt: HostRuntime) {
    let rows = [
        ("", NumFault::Shape),
        (".", NumFault::Shape),
        ("+", NumFault::Shape),
        ("-", NumFault::Shape),
        ("-.", NumFault::Shape),
        ("+-1", NumFault::Shape),
        ("1.2.3", NumFault::Shape),
        ("e5", NumFault::Shape),
        ("1e", NumFault::Shape),
        ("1e+", NumFault::Shape),
        ("1e1234", NumFault::Shape),
        ("1e1.0", NumFault::Shape),
        ("1x", NumFault::Shape),
        (" 1", NumFault::Shape),
        ("1e18", NumFault::Large),
        ("-1000000000000000000", NumFault::Large),
        ("1e999", NumFault::Large),
        ("9999999999999999999", NumFault::Large),
        ("1000000000000000000.0000000000000000001", NumFault::Large),
        ("1e-19", NumFault::Digits(19)),
        ("0.0000000000000000001", NumFault::Digits(19)),
        ("1.5e-18", NumFault::Digits(19)),
        ("1e-999", NumFault::Digits(999)),
    ];
    for (text, want) in rows {
        assert!(rt; read_decimal(text.as_bytes()) == Err(want), "at {text}");
        assert!(rt;
            is_decimal(text.as_bytes()) == (want != NumFault::Shape),
            "at {text}"
        );
    }
}

#[test]
fn divides(rt: HostRuntime) {
    assert_eq!(rt; gcd(0, 12), 12);
    assert_eq!(rt; gcd(12, 18), 6);
    assert_eq!(rt; lcm(10_000, 4), Some(10_000));
    assert_eq!(rt; lcm(10_000, 3), Some(30_000));
    assert_eq!(rt; lcm(1 << 62, 2), Some(1 << 62));
    assert_eq!(rt; lcm(1_000_000_000_000_000_000, 7), None);
}

#[test]
fn rounds(rt: HostRuntime) {
    assert_eq!(rt; mul_down(7, 1, 2), 3);
    assert_eq!(rt; mul_up(7, 1, 2), 4);
    assert_eq!(rt; mul_down(-7, 1, 2), -4);
    assert_eq!(rt; mul_up(-7, 1, 2), -3);
    assert_eq!(rt; mul_down(6, -2, 4), -3);
    assert_eq!(rt; mul_up(6, -2, 4), -3);
}
