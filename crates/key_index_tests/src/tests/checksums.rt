//! The published check value of CRC-32, and that of no bytes.
use super::checks::is;
use key_index_store::checksum::crc32;

#[test]
fn crc32_has_its_check_value(rt: HostRuntime) {
    is(&rt, u64::from(crc32(b"123456789")), 0xcbf4_3926);
    is(&rt, u64::from(crc32(b"")), 0);
}
