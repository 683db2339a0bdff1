//! What each translator makes of keys, and the hashes of translated keys.

use super::checks::{are, counts_are, holds, is, made, put};
use key_index_flat::index::{Factory, Runs, Unordered, unordered};
use key_index_flat::translator::{
    Cap, EightCap, FourCap, Hashed, KeyHash, OneCap, SeededSha256, Translator, TwoCap,
    UintIdentity, UnhashedArray,
};
use key_index_parts::index::partitioned::{self, partition_index_and_sub_key};
use std::process::Abort;

/// A key hash that an attacker would like: the first byte of a key, whatever the seed. Over it a hashed translator gives what its
/// inner one gives of that byte.
#[derive(Clone, Copy)]
struct FirstByte;

impl KeyHash for FirstByte {
    ghost use Rattle.std.specs.Prelude.{slice_index};

    ghost seeded = { λ _. record {} };

    ghost digest = { λ _ key. slice_index key 0 };

    fn from_seed(_seed: u64) -> FirstByte {
        FirstByte
    }

    fn hash(&self, key: &[u8]) -> u64 {
        match key.first() {
            Some(byte) => u64::from(*byte),
            None => 0,
        }
    }
}

/// What a translator makes of keys, through the bound alone.
fn translated<T: Translator>(translator: &T, key: &[u8]) -> T::Key {
    translator.transform(key)
}

/// A translator makes this of a key.
fn gives<T: Translator>(rt: &impl Abort, translator: &T, key: &[u8], want: T::Key) {
    assert!(rt;
        translated(translator, key) == want,
        "what {key:?} is translated to"
    );
}

/// The hash of what a translator makes of a key.
fn hash_of_key<T: Translator>(translator: &T, key: &[u8]) -> u64 {
    translator.hash_of(translator.transform(key))
}

/// The number that a key hash of a seed gives a key.
fn number_of<H: KeyHash>(seed: u64, key: &[u8]) -> u64 {
    H::from_seed(seed).hash(key)
}

/// An array of bytes.
fn array<const N: usize>(inner: [u8; N]) -> UnhashedArray<N> {
    UnhashedArray { inner }
}

#[test]
fn caps_of_integers(rt: HostRuntime) {
    gives(&rt, &OneCap, b"", 0);
    gives(&rt, &OneCap, b"a", 0x61);
    gives(&rt, &OneCap, b"abc", 0x61);
    gives(&rt, &TwoCap, b"", 0);
    gives(&rt, &TwoCap, b"ab", 0x6162);
    gives(&rt, &TwoCap, b"abc", 0x6162);
    holds(
        &rt,
        translated(&TwoCap, b"z") < translated(&TwoCap, b"zz"),
        "the order of translated keys",
    );
    gives(&rt, &TwoCap, b"zzabc", translated(&TwoCap, b"zz"));
    gives(&rt, &TwoCap, b"\x10\x02\xff", 0x1002);
    let (_, rest) = partition_index_and_sub_key::<1>(b"\x10\x02\xff");
    gives(&rt, &TwoCap, rest, 0x02ff);
    gives(&rt, &FourCap, b"abcd", 0x6162_6364);
    gives(&rt, &FourCap, b"abcdef", 0x6162_6364);
    gives(&rt, &EightCap, b"a", 0x6100_0000_0000_0000);
}

#[test]
fn caps_of_any_width(rt: HostRuntime) {
    gives(&rt, &Cap::<3>::new(), b"ab", array([0x61, 0x62, 0]));
    gives(&rt, &Cap::<3>::new(), b"abcdef", array([0x61, 0x62, 0x63]));
    gives(
        &rt,
        &Cap::<6>::new(),
        b"abc",
        array([0x61, 0x62, 0x63, 0, 0, 0]),
    );
    gives(&rt, &Cap::<6>::default(), b"abcdefg", array(*b"abcdef"));
}

#[test]
fn arrays_are_in_the_order_of_bytes(rt: HostRuntime) {
    holds(
        &rt,
        array(*b"\xab\xab\xab\xab\xab\xab\xab\xab\xab")
            < array(*b"\xab\xab\xab\xab\xab\xab\xab\xab\xac"),
        "the order of translated keys",
    );
    holds(
        &rt,
        array([1, 0, 0xff]) > array([0, 0xff, 0xff]),
        "the order of translated keys",
    );
    holds(
        &rt,
        array([0x01, 0xff]) < array([0x02, 0x00]),
        "the order of translated keys",
    );
    holds(
        &rt,
        array([7, 8, 9]) == array([7, 8, 9]),
        "the order of translated keys",
    );
    holds(
        &rt,
        array([7, 8, 9]) != array([7, 8, 0]),
        "the order of translated keys",
    );
}

#[test]
fn identity_hasher(rt: HostRuntime) {
    let mut hasher = UintIdentity::default();
    is(&rt, hasher.finish(), 0);
    hasher.write_u64(1);
    is(&rt, hasher.finish(), 0x9e37_79b9_7f4a_7c15);
    hasher.write_u64(0xf1de_83e1_9937_733d);
    is(&rt, hasher.finish(), 1);
    let copy = hasher.clone().expect(&rt, "a clone");
    hasher.write(&[1, 0, 0, 0, 0, 0, 0, 0, 9]);
    is(&rt, hasher.finish(), 0x9e37_79b9_7f4a_7c15);
    is(&rt, copy.finish(), 1);
}

#[test]
fn identity_hasher_of_narrow_numbers(rt: HostRuntime) {
    let mut hasher = UintIdentity::default();
    hasher.write_u64(1);
    hasher.write(&[]);
    is(&rt, hasher.finish(), 0);
    hasher.write_u8(1);
    is(&rt, hasher.finish(), 0x9e37_79b9_7f4a_7c15);
    hasher.write_u16(0x6162);
    is(&rt, hasher.finish(), 0x965b_e23d_f387_750a);
    hasher.write_u32(1);
    is(&rt, hasher.finish(), 0x9e37_79b9_7f4a_7c15);
}

#[test]
fn hashes_of_caps(rt: HostRuntime) {
    is(&rt, hash_of_key(&OneCap, b"\x01"), 0x9e37_79b9_7f4a_7c15);
    is(&rt, hash_of_key(&TwoCap, b"abc"), 0x965b_e23d_f387_750a);
    is(
        &rt,
        hash_of_key(&FourCap, b"\x00\x00\x00\x01"),
        0x9e37_79b9_7f4a_7c15,
    );
    is(
        &rt,
        hash_of_key(&EightCap, b"\x12\x34\x56\x78\x9a\xbc\xde\xf0"),
        0xc93a_7b79_aeda_89b0,
    );
    is(
        &rt,
        hash_of_key(&EightCap, b"\x96\x15\xef\xb0\x0d\xf9\xde\xf0"),
        0xc93a_7b79_aedb_89b0,
    );
    is(
        &rt,
        hash_of_key(&Cap::<3>::new(), b"ab"),
        0x2f9e_2203_beb9_0df5,
    );
}

/// Seed and key together are known messages: one of one block, two of two blocks, and a million times `a`.
#[test]
fn seeded_digests(rt: HostRuntime) {
    let one_block = number_of::<SeededSha256>(0xb6cc_f4c4_29c9_3857, b"");
    is(&rt, one_block, 0x7712_f527_8fb8_3b96);
    let two_blocks = number_of::<SeededSha256>(ABCDBCDE, KEY);
    is(&rt, two_blocks, 0xb838_06d2_616a_8d24);
    let longer = number_of::<SeededSha256>(
        0x6867_6665_6463_6261,
        b"bcdefghicdefghijdefghijkefghijklfghijklmghijklmnhijklmnoijklmnopjklmnopqklmnopqrlmnopqrsmnopqrstnopqrstu",
    );
    is(&rt, longer, 0x8083_af78_a716_5bcf);
    let many = vec![in rt.alloc(); b'a'; 999_992].expect(&rt, "a key");
    let million = number_of::<SeededSha256>(0x6161_6161_6161_6161, &many);
    is(&rt, million, 0x92fb_1499_5c6e_c7cd);
}

/// The eight bytes `abcdbcde` as a seed.
const ABCDBCDE: u64 = 0x6564_6362_6463_6261;

/// What stands behind them in the message of the standard's example.
const KEY: &[u8] = b"cdefdefgefghfghighijhijkijkljklmklmnlmnomnopnopq";

#[test]
fn hashed_translators(rt: HostRuntime) {
    let seeded: Hashed<TwoCap, SeededSha256> = Hashed::from_seed(ABCDBCDE, TwoCap);
    gives(&rt, &seeded, KEY, 0x248d);
    let drawn: Hashed<TwoCap, SeededSha256> = Hashed::new(ABCDBCDE, TwoCap);
    gives(&rt, &drawn, KEY, 0x248d);
    is(&rt, hash_of_key(&drawn, KEY), TwoCap.hash_of(0x248d));
    let first: Hashed<TwoCap, FirstByte> = Hashed::from_seed(7, TwoCap);
    gives(&rt, &first, b"abc", 0x6100);
}

/// A translator by the key hash of the example.
type Seeded = Hashed<TwoCap, SeededSha256>;

/// An index holds a value under the key of the example.
#[test]
fn hashed_index(rt: HostRuntime) {
    let translator: Seeded = Hashed::from_seed(ABCDBCDE, TwoCap);
    let mut index = made(&rt, unordered::Index::new(rt.alloc(), translator));
    put(&rt, index.insert(KEY, 1));
    are(&rt, index.get(KEY), &[1]);
    are(&rt, index.get(b"cdef"), &[]);
}

/// So does one in partitions.
#[test]
fn hashed_index_in_partitions(rt: HostRuntime) {
    let translator: Seeded = Hashed::from_seed(ABCDBCDE, TwoCap);
    let mut index = made(&rt, InPartitions::new(rt.alloc(), translator));
    put(&rt, index.insert(KEY, 1));
    are(&rt, index.get(KEY), &[1]);
    are(&rt, index.get(b"cdef"), &[]);
}

/// An index in partitions by one byte.
type InPartitions = partitioned::unordered::Index<Seeded, u64, 1>;

/// A seed by which the example's key has another hash.
const OTHER: u64 = 0x6867_6665_6463_6261;

/// The value 1 stays under the slot that it was put in under.
fn stays(rt: &impl Abort, index: &unordered::Index<Seeded, u64>) {
    assert!(rt; index.run_len(0x248d) == 1);
    is(rt, *index.value_at(0x248d, 0), 1);
    counts_are(rt, (index.keys(), index.items(), index.pruned()), (2, 2, 0));
}

/// The calls by key go by another slot.
fn goes_by_another(rt: &impl Abort, index: &mut unordered::Index<Seeded, u64>) {
    are(rt, index.get(KEY), &[]);
    put(rt, index.insert(KEY, 2));
    are(rt, index.get(KEY), &[2]);
    holds(rt, index.slot_of(KEY) == 0x4e7b, "another index key");
}

/// Values stay under their index keys when an index takes another translator, and the calls by key then go by that one.
#[test]
fn another_translator_is_set(rt: HostRuntime) {
    let first: Seeded = Hashed::from_seed(ABCDBCDE, TwoCap);
    let mut index = made(&rt, unordered::Index::new(rt.alloc(), first));
    put(&rt, index.insert(KEY, 1));
    index.set_translator(Hashed::from_seed(OTHER, TwoCap));
    goes_by_another(&rt, &mut index);
    stays(&rt, &index);
}
