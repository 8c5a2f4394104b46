//! Hashes that others have published or computed.

use acfg_sip::{bucket, flag_bucket, sip, table_size};
use std::test::Fail;

// SipHash-2-4 with the key 00 01 .. 0f of the messages of 0 to 15 bytes 00 01 .., the first
// entries of the table in the reference implementation of the paper's authors.
const PUBLISHED: [u64; 16] = [
    0x726f_db47_dd0e_0e31,
    0x74f8_39c5_93dc_67fd,
    0x0d6c_8009_d9a9_4f5a,
    0x8567_6696_d7fb_7e2d,
    0xcf27_94e0_2771_87b7,
    0x1876_5564_cd99_a68d,
    0xcbc9_466e_58fe_e3ce,
    0xab02_00f5_8b01_d137,
    0x93f5_f579_9a93_2462,
    0x9e00_82df_0ba9_e4b0,
    0x7a5d_bbc5_94dd_b9f3,
    0xf4b3_2f46_226b_ada7,
    0x751e_8fbc_860e_e5fb,
    0x14ea_5627_c084_3d90,
    0xf723_ca90_8e7a_f2ee,
    0xa129_ca61_49be_45e5,
];

// The length of a message of bytes 00 01 .., each modulo 256, and what the `DefaultHasher` of
// Rust's standard library gives for it, which is SipHash-1-3 with zero keys.
const FROM_RUST: [(usize, u64); 16] = [
    (0, 0xd1fb_a762_150c_532c),
    (1, 0x68a9_1412_8e01_e473),
    (3, 0x4d4c_9a4a_8ef6_e0ad),
    (7, 0x2f09_8ab0_c751_325a),
    (8, 0xead4_11e6_7ebe_2eea),
    (9, 0x7592_7f9d_9512_4362),
    (15, 0xf30e_b725_bb91_c9ea),
    (16, 0x8972_1884_33a5_c5b7),
    (17, 0x4883_c49a_2c00_9c1d),
    (63, 0x385d_3e39_e5f3_7359),
    (64, 0x75e0_5fd5_bbc8_70c6),
    (100, 0x1c6a_66e1_506e_7908),
    (255, 0x5dc1_f93e_a135_eb43),
    (256, 0x31ae_646a_fba7_0308),
    (257, 0xef7c_ec81_c6f5_6af4),
    (300, 0x4a3e_e92c_f03a_1ab4),
];

fn counted_bytes() -> [u8; 300] {
    let mut bytes = [0; 300];
    for (place, byte) in bytes.iter_mut().enumerate() {
        *byte = (place % 256) as u8;
    }
    bytes
}

#[test]
fn gives_published_hashes(rt: HostRuntime) -> Result<(), Fail> {
    let bytes = counted_bytes();
    for (length, hash) in PUBLISHED.iter().enumerate() {
        let message = bytes.get(..length).ok_or("too long")?;
        let found = sip::<2, 4>(0x0706_0504_0302_0100, 0x0f0e_0d0c_0b0a_0908, message);
        assert_eq!(rt; found, *hash, "of {length} bytes");
    }
    Ok(())
}

#[test]
fn gives_hashes_of_rust(rt: HostRuntime) -> Result<(), Fail> {
    let bytes = counted_bytes();
    for (length, hash) in FROM_RUST {
        let message = bytes.get(..length).ok_or("too long")?;
        assert_eq!(rt; sip::<1, 3>(0, 0, message), hash, "of {length} bytes");
    }
    Ok(())
}

// Rust's `Hash` of a text ends it with 0xff too, so these come from hashing the key's text there.
#[test]
fn finds_buckets(rt: HostRuntime) {
    assert_eq!(rt; bucket(b"", 1), 0);
    assert_eq!(rt; bucket(b"com.a", 7), 2);
    assert_eq!(rt; bucket(b"com.android.aconfig.storage.test_1", 7), 3);
    assert_eq!(rt; bucket(b"com.android.aconfig.storage.test_2", 7), 0);
    assert_eq!(rt; bucket(b"com.a.b", 4_294_967_295), 3_811_711_828);
    assert_eq!(rt; flag_bucket(0, b"enabled_rw", 17), 1);
    assert_eq!(rt; flag_bucket(10, b"f", 4_294_967_295), 3_786_201_955);
    assert_eq!(rt; flag_bucket(4_294_967_295, b"disabled_rw", 17), 12);
    let long_name = b"a_flag_of_a_long_name_that_goes_over_more_than_one_word";
    assert_eq!(rt; flag_bucket(49_999, long_name, 98_317), 48_367);
}

#[test]
fn sizes_tables(rt: HostRuntime) {
    for (entries, buckets) in [
        (0, 7),
        (3, 7),
        (4, 17),
        (8, 17),
        (9, 29),
        (196_620, 393_241),
    ] {
        assert_eq!(rt; table_size(entries), Some(buckets), "for {entries}");
    }
    assert_eq!(rt; table_size(196_621), None);
}
