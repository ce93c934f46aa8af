ghost use Rattle.std.specs.Prelude.{◌≡◌, List, ℕ};
ghost use Rattle.aes_block.specs.Cipher.{IsBlock};
ghost use Rattle.mc_keys.specs.Keys.{mc_root_key, mc_root_key_1_1, mc_ke_key, mc_key, session_block, mc_app_s_key, mc_net_s_key};
ghost use Rattle.mc_keys.specs.Roots.{root_of};

use crate::root_kind::RootKind;
use aes_block::Aes128;

/// The 16 bytes of a key, in the order in which they are sent.
pub type Key = [u8; 16];

/// The block that an AppKey encrypts to make the root key of a LoRaWAN 1.1 device.
const ROOT_BLOCK: [u8; 16] = [0x20, 0, 0, 0, 0, 0, 0, 0, 0, 0, 0, 0, 0, 0, 0, 0];

/// Derives McRootKey of a device (TS005-1.0.0, Multicast security) from GenAppKey or AppKey, by its kind.
pub fn root(kind: RootKind, key: &Key) -> Key
    ensures { result ≡ root_of kind key.now }
{
    match kind {
        RootKind::V10 => root_1_0(key),
        RootKind::V11 => root_1_1(key),
    }
}

/// Derives McRootKey of a LoRaWAN 1.0 device from its GenAppKey.
pub fn root_1_0(gen_app_key: &Key) -> Key
    ensures { result ≡ mc_root_key gen_app_key.now }
{
    Aes128::new(gen_app_key).encrypt(&[0; 16])
}

/// Derives McRootKey of a LoRaWAN 1.1 device from its AppKey.
pub fn root_1_1(app_key: &Key) -> Key
    ensures { result ≡ mc_root_key_1_1 app_key.now }
{
    Aes128::new(app_key).encrypt(&ROOT_BLOCK)
}

/// Derives McKEKey, under which group keys are wrapped, from McRootKey.
pub fn kek(root: &Key) -> Key
    ensures { result ≡ mc_ke_key root.now }
{
    Aes128::new(root).encrypt(&[0; 16])
}

/// Unwraps McKey from McKey_encrypted of a McGroupSetupReq, as the device does.
pub fn unwrap_key(kek: &Key, wrapped: &Key) -> Key
    ensures { result ≡ mc_key kek.now wrapped.now }
{
    Aes128::new(kek).encrypt(wrapped)
}

/// Wraps McKey into McKey_encrypted, as the server sends it: the one block that is unwrapped to the key.
pub fn wrap_key(kek: &Key, key: &Key) -> Key
    ensures unwraps { mc_key kek.now result ≡ key.now }
    ensures only { (x : List ℕ) → IsBlock x → mc_key kek.now x ≡ key.now → x ≡ result }
{
    Aes128::new(kek).decrypt(key)
}

/// Derives McAppSKey of a group from its McKey and McAddr.
pub fn app_s_key(mc_key: &Key, addr: u32) -> Key
    ensures { result ≡ mc_app_s_key mc_key.now addr }
{
    Aes128::new(mc_key).encrypt(&session_block(0x01, addr))
}

/// Derives McNetSKey of a group from its McKey and McAddr.
pub fn net_s_key(mc_key: &Key, addr: u32) -> Key
    ensures { result ≡ mc_net_s_key mc_key.now addr }
{
    Aes128::new(mc_key).encrypt(&session_block(0x02, addr))
}

/// A byte, the address with its lowest byte first, and zeros.
fn session_block(first: u8, addr: u32) -> [u8; 16]
    ensures { result ≡ session_block first addr }
{
    let [a0, a1, a2, a3] = addr.to_le_bytes();
    [first, a0, a1, a2, a3, 0, 0, 0, 0, 0, 0, 0, 0, 0, 0, 0]
}
