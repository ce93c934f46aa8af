//! The session keys of a multicast group, for who sends its frames.

ghost use Rattle.std.specs.Prelude.{◌≡◌};
ghost use Rattle.mc_keys.specs.Keys.{mc_app_s_key, mc_net_s_key};

/// Derives McAppSKey of a group, by which its payloads are encrypted, from its McKey and McAddr (TS005-1.0.0, Multicast security).
#[unsafe(no_mangle)]
pub extern "C" fn fuota_mc_app_s_key(mc_key: &[u8; 16], addr: u32, s_key: &mut [u8; 16])
    ensures { s_key.new ≡ mc_app_s_key mc_key.now addr }
{
    *s_key = mc_keys::app_s_key(mc_key, addr);
}

/// Derives McNetSKey of a group, by which its frames have their MIC, from its McKey and McAddr.
#[unsafe(no_mangle)]
pub extern "C" fn fuota_mc_net_s_key(mc_key: &[u8; 16], addr: u32, s_key: &mut [u8; 16])
    ensures { s_key.new ≡ mc_net_s_key mc_key.now addr }
{
    *s_key = mc_keys::net_s_key(mc_key, addr);
}
