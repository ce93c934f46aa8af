//! When a form is refused: one test for each cause.

ghost use Rattle.std.specs.Prelude.{◌≡◌, ◌≤◌, ◌<◌, ◌^◌, ℕ, length};
ghost use Rattle.script_lines.specs.declared.forms.Form.TheVariants.{Image};
ghost use Rattle.image_slots.specs.Image.{max_image};
ghost use Rattle.campaign_world.specs.Causes.{is_event_or_end, is_in_order, fits_script, is_device, names_device, fits_flash, may_reach, is_to_group, goes_out, is_due_by};
ghost use Rattle.wire_base.specs.Numbered.{numbered};

use crate::logs::{SentLog, UplinkLog};
use crate::section::Section;
use frag_model::lines::MAX_PIECES;
use package_grammar::To;
use script_lines::Form;

/// The most devices of a script whose sessions are held in flash.
const MAX_FLASH_DEVICES: usize = 4;

/// Says whether the form comes after the plan: an event, or the end.
pub fn is_event_or_end(form: &Form) -> bool
    ensures { result ≡ is_event_or_end form.now }
{
    match form {
        Form::Header => false,
        Form::Image { .. } => false,
        Form::Group { .. } => false,
        Form::WindowC { .. } => false,
        Form::WindowB { .. } => false,
        Form::Device(_) => false,
        _ => true,
    }
}

/// Says whether the form may come in this section.
pub fn is_in_order(section: Section, form: &Form) -> bool
    ensures { result ≡ is_in_order section form.now }
{
    match section {
        Section::Header => matches!(form, Form::Header),
        Section::Image => matches!(form, Form::Image { .. }),
        Section::Group => matches!(form, Form::Group { .. } | Form::Device(_)),
        Section::Window => matches!(form, Form::WindowC { .. } | Form::WindowB { .. }),
        Section::Device => matches!(form, Form::Device(_)),
        Section::Devices => matches!(form, Form::Device(_)) || is_event_or_end(form),
        Section::Events => is_event_or_end(form),
        Section::Ended => false,
    }
}

/// Says whether an image of this length has at most 4,096 fragments, and the device's ID is the next after so many.
pub fn fits_script(len: usize, count: usize, form: &Form) -> bool
    requires len { len ≤ max_image }
    requires count { count < 2 ^ 63 }
    requires size { (frag_size parity index : ℕ) → form.now ≡ Image frag_size parity index
        → (1 ≤ frag_size) × (frag_size ≤ 239) }
    ensures { result ≡ fits_script len count form.now }
{
    match form {
        Form::Image { frag_size, .. } => {
            len.div_ceil(*frag_size as usize) <= MAX_PIECES as usize
        }
        Form::Device(line) => line.id == count as u64 + 1,
        _ => true,
    }
}

/// Says whether so many devices, numbered from 1, have this one.
pub fn is_device(count: usize, device: u64) -> bool
    ensures { result ≡ is_device count device }
{
    1 <= device && device <= count as u64
}

/// Says whether the device that the form names, if it names one, is in the script.
pub fn names_device(count: usize, form: &Form) -> bool
    ensures { result ≡ names_device count form.now }
{
    match form {
        Form::Wake { device } => is_device(count, *device),
        Form::Migrate { device } => is_device(count, *device),
        Form::Power { device } => is_device(count, *device),
        Form::Ask { device } => is_device(count, *device),
        Form::Down { device, .. } => is_device(count, *device),
        Form::Raw { device, .. } => is_device(count, *device),
        Form::Air { device, .. } => is_device(count, *device),
        Form::RawAir { device, .. } => is_device(count, *device),
        _ => true,
    }
}

/// Says whether a payload was sent, to this device or to any.
pub fn may_reach(device: u64, sent: &SentLog, number: u64) -> bool
    ensures { result ≡ may_reach device (numbered sent.now.items number) }
{
    match sent.number(number) {
        Some(found) => match found.receiver {
            Some(receiver) => u64::from(receiver) == device,
            None => true,
        },
        None => false,
    }
}

/// Says whether a sent payload goes out as a frame: it is to a group.
pub fn goes_out(sent: &SentLog, number: u64) -> bool
    ensures { result ≡ goes_out (numbered sent.now.items number) }
{
    match sent.number(number) {
        Some(found) => is_to_group(found.down.to()),
        None => false,
    }
}

fn is_to_group(to: To) -> bool
    ensures { result ≡ is_to_group to }
{
    match to {
        To::Unicast => false,
        To::Group { .. } => true,
    }
}

/// Says whether an uplink was made, and is due by now.
pub fn is_due_by(now: u64, uplinks: &UplinkLog, number: u64) -> bool
    ensures { result ≡ is_due_by now (numbered uplinks.now.items number) }
{
    match uplinks.number(number) {
        Some(made) => made.uplink.due() <= now,
        None => false,
    }
}

/// Says whether a device with a flash, where the form has one, has its place after so many of them.
pub fn fits_flash(count: usize, form: &Form) -> bool
    ensures { result ≡ fits_flash count form.now }
{
    match form {
        Form::Device(line) => !line.flash || count < MAX_FLASH_DEVICES,
        _ => true,
    }
}
