//! CRC-32, the cyclic redundancy check of ISO 3309, as zlib and PNG have it.
ghost use Rattle.std.specs.Prelude.{◌≡◌, ◌+◌, ◌*◌, ◌<◌, ◌++◌};
ghost use Rattle.std.specs.List.{fold};
ghost use Rattle.key_index_store.specs.Checksum.{after_bits, after_byte, crc32};

// For each number, the exclusive or of the words that stand at its bits.
macro_rules! spanned {
    ([$($all:expr),*]) => { [$($all),*] };
    ([$($all:expr),*] $word:literal $($words:literal)*) => { spanned!([$($all,)* $($all ^ $word),*] $($words)*) };
}

/// What a byte leaves of an empty register, once as many zero bytes as the table's number have followed it.
static TABLES: [[u32; 256]; 8] = [
    spanned!([0] 0x7707_3096 0xee0e_612c 0x076d_c419 0x0edb_8832 0x1db7_1064 0x3b6e_20c8 0x76dc_4190 0xedb8_8320),
    spanned!([0] 0x191b_3141 0x3236_6282 0x646c_c504 0xc8d9_8a08 0x4ac2_1251 0x9584_24a2 0xf079_4f05 0x3b83_984b),
    spanned!([0] 0x01c2_6a37 0x0384_d46e 0x0709_a8dc 0x0e13_51b8 0x1c26_a370 0x384d_46e0 0x709a_8dc0 0xe135_1b80),
    spanned!([0] 0xb8bc_6765 0xaa09_c88b 0x8f62_9757 0xc5b4_28ef 0x5019_579f 0xa032_af3e 0x9b14_583d 0xed59_b63b),
    spanned!([0] 0x3d60_29b0 0x7ac0_5360 0xf580_a6c0 0x3070_4bc1 0x60e0_9782 0xc1c1_2f04 0x58f3_5849 0xb1e6_b092),
    spanned!([0] 0xcb5c_d3a5 0x4dc8_a10b 0x9b91_4216 0xec53_826d 0x03d6_029b 0x07ac_0536 0x0f58_0a6c 0x1eb0_14d8),
    spanned!([0] 0xa677_0bb4 0x979f_1129 0xf44f_2413 0x33ef_4e67 0x67de_9cce 0xcfbd_399c 0x440b_7579 0x8816_eaf2),
    spanned!([0] 0xccaa_009e 0x4225_077d 0x844a_0efa 0xd3e5_1bb5 0x7cbb_312b 0xf976_6256 0x299d_c2ed 0x533b_85da),
];

/// What a byte leaves of an empty register, once `followers` zero bytes have followed it.
fn left_of(byte: u8, followers: usize) -> u32
    requires { followers < 8 }
    ensures { result ≡ after_bits (8 * (followers + 1)) byte }
{
    TABLES[followers][byte as usize]
}

/// Takes a byte in.
fn after_next(register: u32, byte: u8) -> u32
    ensures { result ≡ after_byte register byte }
{
    let mixed = register ^ byte as u32;
    left_of((mixed & 255) as u8, 0) ^ (mixed >> 8)
}

/// Takes eight bytes in, each by its own table (Kounavis and Berry, 2005).
fn after_eight(register: u32, bytes: &[u8; 8]) -> u32
    ensures { result ≡ fold after_byte register bytes.now }
{
    let word = register as u64 ^ u64::from_le_bytes(*bytes);
    let [a, b, c, d, e, f, g, h] = word.to_le_bytes();
    // The first four bytes wait for the register, so they come last.
    left_of(h, 0)
        ^ left_of(g, 1)
        ^ left_of(f, 2)
        ^ left_of(e, 3)
        ^ left_of(d, 4)
        ^ left_of(c, 5)
        ^ left_of(b, 6)
        ^ left_of(a, 7)
}

/// Takes bytes in.
fn after_all(register: u32, bytes: &[u8]) -> u32
    ensures { result ≡ fold after_byte register bytes.now }
{
    let (eights, rest) = bytes.as_chunks::<8>();
    let mut register = register;
    for eight in eights {
        register = after_eight(register, eight);
    }
    for byte in rest {
        register = after_next(register, *byte);
    }
    register
}

/// The checksum of some bytes. Of the nine digits "123456789" it is 0xcbf4_3926.
pub fn crc32(bytes: &[u8]) -> u32
    ensures { result ≡ crc32 bytes.now }
{
    after_all(u32::MAX, bytes) ^ u32::MAX
}

/// The checksum of some bytes and of others behind them.
pub fn crc32_of_both(front: &[u8], back: &[u8]) -> u32
    ensures { result ≡ crc32 (front.now ++ back.now) }
{
    after_all(after_all(u32::MAX, front), back) ^ u32::MAX
}
