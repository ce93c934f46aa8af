ghost use Rattle.std.specs.Prelude.{◌≡◌, List, ℕ, replicate};
ghost use Rattle.aes_block.specs.Cipher.{IsBlock, cipher};
ghost use Rattle.aes_block.specs.CipherInside.{AreRoundKeys};

use crate::expansion::round_keys;
use crate::steps::{last_round, mixed_round};
use crate::tables::ROUND_KEYS_OF_ZEROS;
use crate::undo::{undo_add_round_key, undo_last_round, undo_mix_columns};
use crate::words::{add_round_key, from_block, to_block};
use std::marker::Model;

/// AES-128 under one key. Contracts see the key's 16 bytes. It looks bytes up in tables: its time may depend on key and block.
#[derive(Drop)]
pub struct Aes128 {
    key: [u8; 16],
    round_keys: [[u32; 11]; 4],
}

impl Model for Aes128 {
    ghost use Rattle.std.specs.Prelude.{List, ℕ};
    ghost use Rattle.aes_block.specs.CipherInside.{IsExpanded};

    ghost Value = { List ℕ };

    ghost view = { λ a. a.key };

    ghost invariant = { λ a. IsExpanded a.key a.round_keys };
}

impl Aes128 {
    /// Makes the cipher under a key.
    pub fn new(key: &[u8; 16]) -> Self
        ensures { result ≡ key.now }
    {
        Aes128 {
            key: *key,
            round_keys: round_keys(key),
        }
    }

    /// Encrypts a block.
    pub fn encrypt(&self, block: &[u8; 16]) -> [u8; 16]
        ensures { result ≡ cipher self.now block.now }
    {
        encrypted(&self.key, &self.round_keys, block)
    }

    /// Decrypts a block: returns the one block that encrypts to it.
    pub fn decrypt(&self, block: &[u8; 16]) -> [u8; 16]
        ensures found { cipher self.now result ≡ block.now }
        ensures only { (x : List ℕ) → IsBlock x → cipher self.now x ≡ block.now → x ≡ result }
    {
        decrypted(&self.key, &self.round_keys, block)
    }
}

/// Encrypts a block under the key of 16 zeros, whose round keys are in a table.
#[tactic(auto, using(crate::proofs::ZeroKey::round_keys_are))]
pub fn encrypt_under_zeros(block: &[u8; 16]) -> [u8; 16]
    ensures { result ≡ cipher (replicate 16 0) block.now }
{
    encrypted(&[0; 16], &ROUND_KEYS_OF_ZEROS, block)
}

fn encrypted(key: &[u8; 16], round_keys: &[[u32; 11]; 4], block: &[u8; 16]) -> [u8; 16]
    requires { AreRoundKeys key.now round_keys.now }
    ensures { result ≡ cipher key.now block.now }
{
    let mut state = add_round_key(from_block(block), round_keys, 0);
    for round in 1..10 {
        state = add_round_key(mixed_round(state), round_keys, round);
    }
    to_block(add_round_key(last_round(state), round_keys, 10))
}

fn decrypted(key: &[u8; 16], round_keys: &[[u32; 11]; 4], block: &[u8; 16]) -> [u8; 16]
    requires { AreRoundKeys key.now round_keys.now }
    ensures found { cipher key.now result ≡ block.now }
    ensures block { IsBlock result }
{
    let last = undo_add_round_key(from_block(block), round_keys, 10);
    let mut state = undo_last_round(last);
    for round in (1..10).rev() {
        let mixed = undo_add_round_key(state, round_keys, round);
        state = undo_last_round(undo_mix_columns(mixed));
    }
    to_block(undo_add_round_key(state, round_keys, 0))
}
