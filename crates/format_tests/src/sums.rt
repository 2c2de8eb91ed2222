//! CRC-32C on examples.
use crc32c::{append, checksum};

// RFC 3720, B.4
#[test]
fn rfc_3720(rt: HostRuntime) {
    let up =
        b"\x00\x01\x02\x03\x04\x05\x06\x07\x08\x09\x0a\x0b\x0c\x0d\x0e\x0f\x10\x11\x12\x13\x14\x15\x16\x17\x18\x19\x1a\x1b\x1c\x1d\x1e\x1f";
    let down =
        b"\x1f\x1e\x1d\x1c\x1b\x1a\x19\x18\x17\x16\x15\x14\x13\x12\x11\x10\x0f\x0e\x0d\x0c\x0b\x0a\x09\x08\x07\x06\x05\x04\x03\x02\x01\x00";
    let read =
        b"\x01\xc0\0\0\0\0\0\0\0\0\0\0\0\0\0\0\x14\0\0\0\0\0\x04\0\0\0\0\x14\0\0\0\x18\x28\0\0\0\0\0\0\0\x02\0\0\0\0\0\0\0";
    assert_eq!(rt; checksum(&[0; 32]), 0x8A91_36AA);
    assert_eq!(rt; checksum(&[0xff; 32]), 0x62A8_AB43);
    assert_eq!(rt; checksum(up), 0x46DD_794E);
    assert_eq!(rt; checksum(down), 0x113F_DB5C);
    assert_eq!(rt; checksum(read), 0xD996_3A56);
}

#[test]
fn nine_digits(rt: HostRuntime) {
    assert_eq!(rt; checksum(b"123456789"), 0xE306_9283);
    assert_eq!(rt; append(checksum(b"1234"), b"56789"), 0xE306_9283);
    assert_eq!(rt; checksum(b""), 0);
}
