//! The forms of the program's words.

use wire_base::Direction;

/// What the words ask for.
#[derive(Clone, Copy)]
pub enum Invocation<'a> {
    /// A form over a campaign, and what it asks for.
    Script {
        what: ScriptForm,
        image: &'a str,
        script: &'a str,
    },
    /// A form with one file of payloads, and what it asks for.
    Payloads {
        what: FileForm,
        file: &'a str,
    },
    /// `campaigns IMAGE IMAGE SCRIPT`: the report of two campaigns of one script.
    Pair {
        image_a: &'a str,
        image_b: &'a str,
        script: &'a str,
    },
    /// `generate SEED`: the summary of the campaign that the seed makes.
    Generate {
        seed: u32,
    },
}

/// What a form asks for of a campaign.
#[derive(Clone, Copy)]
pub enum ScriptForm {
    /// `campaign IMAGE SCRIPT`: its report.
    Campaign,
    /// `recover IMAGE SCRIPT DEVICE`: the file that a device recovered; the device is 1 to 64.
    Recover { device: u8 },
}

/// What a form asks for of a file of payloads.
#[derive(Clone, Copy)]
pub enum FileForm {
    /// `replay FILE`: the state of a device that hears them.
    Replay,
    /// `decode PORT DIR FILE`: their commands; the port is 200 to 203.
    Decode { port: u8, dir: Direction },
    /// `capture FILE`: both for JSON objects, each with its port and direction.
    Capture,
}
