//! The server's answer to a device's time.

ghost use Rattle.std.specs.Prelude.{◌≡◌};
ghost use Rattle.clock_sync.specs.Clock.{correction_of, is_answer_needed};

/// Returns TimeCorrection of an AppTimeAns (TS003-1.0.0): the seconds from `device_time` to `server_seconds`, modulo 2^32 and
/// signed.
pub fn correction(server_seconds: u32, device_time: u32) -> i32
    ensures { result ≡ correction_of server_seconds device_time }
{
    server_seconds.wrapping_sub(device_time).cast_signed()
}

/// Says whether an AppTimeReq (TS003-1.0.0) is answered: AnsRequired is set, or the correction is not 0.
pub fn answer_needed(required: bool, correction: i32) -> bool
    ensures { result ≡ is_answer_needed required correction }
{
    required || correction != 0
}
