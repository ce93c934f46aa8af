//! Images and scripts of seeds, by what another program made of them.

use campaign_generator::generate;
use sha2::{Digest, Sha256};
use std::alloc::Global;
use std::process::Abort;
use std::test::*;

/// The values that another program made of a seed.
struct Case {
    seed: u32,
    image_length: usize,
    image_digest: u64,
    script_length: usize,
    script_digest: u64,
    device: &'static str,
}

/// The first eight bytes of the SHA-256, as a number.
fn digest_start(bytes: &[u8]) -> u64 {
    let [a, b, c, d, e, f, g, h, ..] = Sha256::digest(bytes);
    u64::from_be_bytes([a, b, c, d, e, f, g, h])
}

static CASES: [Case; 4] = [
    Case {
        seed: 0,
        image_length: 7327,
        image_digest: 0xb333_6635_01a1_d37c,
        script_length: 23_818,
        script_digest: 0x9c02_f428_ed80_f9f3,
        device: "device 1 c 1 64 20657 00000000000000000000000000000000\n",
    },
    Case {
        seed: 1,
        image_length: 7353,
        image_digest: 0x2811_c755_1d86_b25d,
        script_length: 23_553,
        script_digest: 0x5602_da2e_779e_ad0e,
        device: "device 1 c 1 64 45600 00000000000000000000000000000000\n",
    },
    Case {
        seed: 999,
        image_length: 8125,
        image_digest: 0x85e7_bdde_f7b4_9aa2,
        script_length: 24_524,
        script_digest: 0xc819_a46a_f1df_7750,
        device: "device 1 c 1 64 38093 00000000000000000000000000000000\n",
    },
    Case {
        seed: u32::MAX,
        image_length: 7302,
        image_digest: 0xc3db_7660_6c40_ee56,
        script_length: 23_645,
        script_digest: 0x1bc1_90cf_d493_7c13,
        device: "device 1 c 1 64 64407 00000000000000000000000000000000\n",
    },
];

/// What was made of the case's seed is this.
fn is_made(rt: &impl Abort, image: &[u8], script: &[u8], case: &Case) {
    assert!(rt; image.len() == case.image_length && digest_start(image) == case.image_digest);
    assert!(rt; script.len() == case.script_length && digest_start(script) == case.script_digest);
    assert!(rt; script.starts_with(b"fuota 1\nimage 64 128\n"));
    assert!(rt; script[21..].starts_with(case.device.as_bytes()));
    assert!(rt; script.ends_with(b"up 48\nend\n"));
}

fn gives(rt: &impl Abort, alloc: Global, case: &Case) {
    match generate(alloc, case.seed) {
        Ok(made) => {
            is_made(rt, &made.image, &made.script, case);
            drop(made);
        }
        Err(_) => panic!(rt; "no memory"),
    }
}

#[test]
fn seeds_give_their_images_and_scripts(rt: HostRuntime) {
    for case in &CASES {
        gives(&rt, rt.alloc(), case);
    }
}
