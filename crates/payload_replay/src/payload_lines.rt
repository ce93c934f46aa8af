// The lines of a file of captured payloads, each in hex.
ghost use Rattle.std.specs.Prelude.{◌≡◌, ◌≢◌, ◌+◌, ◌<◌, ◌≤◌, length, take, Ok, IfOk, IfErr, OnOk};
ghost use Rattle.wire_base.specs.Payload.{max_payload};
ghost use Rattle.payload_replay.specs.PayloadLines.{is_beyond, payload_of};
ghost use Rattle.report_lines.specs.Lines.{IsLineRefused};
ghost use Rattle.report_lines.specs.declared.faults.LineError.{LineError};

use report_lines::{LineError, LineWhy, MAX_LINE, MAX_LINES, refused_behind};
use script_lines::MAX_HEX_BYTES;
use wire_base::MAX_PAYLOAD;

/// Says whether a line that comes after so many is beyond the limits: it is not among the first 20,000, or has more than 600
/// bytes.
pub fn is_beyond(lines: u32, line: &[u8]) -> bool
    ensures { result ≡ is_beyond lines line.now }
{
    lines >= MAX_LINES || line.len() > MAX_LINE
}

/// Writes the payload of a line that comes after so many to the front of `out`, and returns how many bytes it has.
#[tactic(auto, unfolding(crate::specs::PayloadLines::payload_of, crate::specs::PayloadLines::payload_by))]
pub fn read_payload(
    lines: u32,
    line: &[u8],
    out: &mut [u8; MAX_HEX_BYTES],
) -> Result<usize, LineError>
    requires { lines ≤ 20000 }
    ensures payload { IfOk result (λ count. payload_of lines line.now ≡ Ok (take count out.new)) }
    ensures short { IfOk result (λ count. count ≤ max_payload) }
    ensures few { OnOk result (lines < 20000) }
    ensures refused { IfErr result (IsLineRefused payload_of lines line.now) }
    ensures memory { IfErr result (λ error. error ≢ LineError.Memory) }
{
    if is_beyond(lines, line) {
        return Err(refused_behind(lines, LineWhy::Limit));
    }
    let count = line.len() / 2;
    match hex::decode_to_slice(line, &mut out[..count]) {
        Ok(()) if count > MAX_PAYLOAD => Err(refused_behind(lines, LineWhy::Limit)),
        Ok(()) => Ok(count),
        Err(_) => Err(refused_behind(lines, LineWhy::Syntax)),
    }
}
