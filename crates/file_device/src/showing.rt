//! What a device shows.

ghost use Rattle.std.specs.Prelude.{◌<◌};

use device_core::Device;
use file_flash::FileFlash;
use frag_session::Verdict;
use image_slots::ImageState;
use std::io;

/// Prints the version that runs and the one received to run next, its counters, and of each session what it misses or its file.
pub fn show(rt: &HostRuntime, device: &Device<FileFlash>) -> io::Result<()> {
    let (version, _file) = device.slots().running();
    let counts = device.counts();
    println!(rt; "runs {version} next {}", next_word(device.slots().next()))?;
    println!(rt;
        "counts {} {} {} {}",
        counts.deaf, counts.refused, counts.full, counts.dropped
    )?;
    for index in 0..4 {
        show_session(rt, device, index)?;
    }
    println!(rt; "done")
}

fn next_word(state: ImageState) -> &'static str {
    match state {
        ImageState::None => "none",
        ImageState::Corrupt => "corrupt",
        ImageState::Incompatible => "incompatible",
        ImageState::Valid(_) => "valid",
    }
}

fn show_session(rt: &HostRuntime, device: &Device<FileFlash>, index: u8) -> io::Result<()>
    requires { index < 4 }
{
    let Some(view) = device.session(index) else {
        return println!(rt; "session {index} none");
    };
    match view.verdict {
        Verdict::Receiving => println!(rt; "session {index} missing {}", view.missing),
        Verdict::Complete(_) => {
            let text = hex::encode(rt.alloc(), view.file)?;
            println!(rt; "session {index} whole {}", text.as_str())
        }
        Verdict::NoRows(_) => println!(rt; "session {index} norows"),
        Verdict::Conflict(_) => println!(rt; "session {index} conflict"),
    }
}
