//! AES-128 against FIPS 197 and another AES.

use aes_block::{Aes128, encrypt_under_zeros};
use std::test::*;

/// Blocks as numbers, the first byte highest.
struct Vector {
    key: u128,
    plain: u128,
    cipher: u128,
}

/// The first is FIPS 197's own (C.1); the others were computed with the AES of Python's `cryptography`.
static VECTORS: [Vector; 11] = [
    Vector {
        key: 0x000102030405060708090a0b0c0d0e0f,
        plain: 0x00112233445566778899aabbccddeeff,
        cipher: 0x69c4e0d86a7b0430d8cdb78070b4c55a,
    },
    Vector {
        key: 0x00000000000000000000000000000000,
        plain: 0x00000000000000000000000000000000,
        cipher: 0x66e94bd4ef8a2c3b884cfa59ca342b2e,
    },
    Vector {
        key: 0xffffffffffffffffffffffffffffffff,
        plain: 0xffffffffffffffffffffffffffffffff,
        cipher: 0xbcbf217cb280cf30b2517052193ab979,
    },
    Vector {
        key: 0x00000000000000000000000000000000,
        plain: 0x80000000000000000000000000000000,
        cipher: 0x3ad78e726c1ec02b7ebfe92b23d9ec34,
    },
    Vector {
        key: 0x703fe79eb9fecc7c21b825deb501016d,
        plain: 0xf0af03909b7f4ca4d55651cd24462a9c,
        cipher: 0xcc044721bbc94a1339787e0e1d40425e,
    },
    Vector {
        key: 0x17366cfb83494e10a546158a29c0e828,
        plain: 0x392bb425a22c8663f1a716d9fae303dc,
        cipher: 0x32dd0c19f3c4cf397fbbbab25792f08e,
    },
    Vector {
        key: 0xadc59ab78ee7b83225cbfbcaf921259e,
        plain: 0xb80cd58966f177e91da1f29c626627ce,
        cipher: 0xc7eb8c2cced7819c946389d939f2736b,
    },
    Vector {
        key: 0x5174331035afdbb76179ccbf52f28fe8,
        plain: 0xbddc1ead20d9664548db57c570b7376f,
        cipher: 0x722b5810b8690b0d60066395242f15a4,
    },
    Vector {
        key: 0x975d690bd326a4bab739be35abe25899,
        plain: 0x7c291fc0f580427cdbd90172772930a2,
        cipher: 0x40679797922c220313f96664f6e29e1e,
    },
    Vector {
        key: 0xafa2e66545118abf768b656e745b6eaf,
        plain: 0x112b335dc1c79b3e16efbf4aa98458fb,
        cipher: 0xf97394845cd1336aafa92b969664fc0d,
    },
    Vector {
        key: 0xd0793b7f473d00b7f200b9e27dc74998,
        plain: 0x683270567e241817f68a668a085329d3,
        cipher: 0xdb6a97ed65c175d37c4c3c717b46a033,
    },
];

#[test]
fn vectors_are_met_both_ways(rt: HostRuntime) {
    for vector in &VECTORS {
        let aes = Aes128::new(&vector.key.to_be_bytes());
        let (plain, cipher) = (vector.plain.to_be_bytes(), vector.cipher.to_be_bytes());
        assert!(rt; aes.encrypt(&plain) == cipher);
        assert!(rt; aes.decrypt(&cipher) == plain);
    }
}

#[test]
fn zeros_encrypt_as_any_key_does(rt: HostRuntime) {
    let zeros = Aes128::new(&[0; 16]);
    for vector in &VECTORS {
        let plain = vector.plain.to_be_bytes();
        assert!(rt; encrypt_under_zeros(&plain) == zeros.encrypt(&plain));
    }
}
