//! How a class session request is answered.

ghost use Rattle.std.specs.Prelude.{◌≡◌};
ghost use Rattle.class_windows.specs.Sessions.{error_bits, start_answer, time_to_start};

/// Answers a McClassCSessionReq or McClassBSessionReq (TS005-1.0.0): the error bits, and TimeToStart where there is none. Bit 4:
/// the group is not there; bit 3: `freq` (100 Hz) is outside 863 to 870 MHz; bit 2: the data rate is above 5. TimeToStart is in
/// seconds, at most 2^24 - 1, and 0 where the start is past; `device_time` and `start` are seconds of the device's clock. The
/// limits of `freq` and of the data rate are this project's profile.
pub fn session_answer(
    group_there: bool,
    device_time: u32,
    start: u32,
    freq: u32,
    dr: u8,
) -> (u8, Option<u32>)
    ensures bits { result.0 ≡ error_bits group_there freq dr }
    ensures start { result.1 ≡ start_answer result.0 device_time start }
{
    let mut bits = 0;
    if !group_there {
        bits |= 1 << 4;
    }
    if freq < 8_630_000 || freq > 8_700_000 {
        bits |= 1 << 3;
    }
    if dr > 5 {
        bits |= 1 << 2;
    }
    (
        bits,
        if bits == 0 {
            Some(time_to_start(device_time, start))
        } else {
            None
        },
    )
}

fn time_to_start(device_time: u32, start: u32) -> u32
    ensures { result ≡ time_to_start device_time start }
{
    let seconds = start.wrapping_sub(device_time);
    if seconds < 1 << 31 {
        seconds.min((1 << 24) - 1)
    } else {
        0
    }
}
