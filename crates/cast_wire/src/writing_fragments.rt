//! PackageVersion and TS004-1.0.0.

ghost use Rattle.std.specs.Prelude.{◌<◌, ◌≤◌, length};
ghost use Rattle.cast_wire.specs.Table.{IsValid, canonical};
ghost use Rattle.wire_base.specs.Payload.{Appends};

use crate::cmd::Cmd;
use crate::ids::{
    DATA_FRAGMENT, FRAGMENT_HEAD_LEN, PACKAGE_VERSION, SESSION_DELETE, SESSION_SETUP,
    SESSION_STATUS,
};
use wire_base::{Full, Payload};

pub fn put_version_request(out: &mut Payload) -> Result<(), Full>
    requires { IsValid (Cmd.PackageVersionReq) }
    ensures { Appends out.old out.new (canonical (Cmd.PackageVersionReq)) result }
{
    out.append(&[PACKAGE_VERSION])
}

pub fn put_version_answer(identifier: u8, version: u8, out: &mut Payload) -> Result<(), Full>
    requires { IsValid (Cmd.PackageVersionAns identifier version) }
    ensures { Appends out.old out.new
        (canonical (Cmd.PackageVersionAns identifier version)) result }
{
    out.append(&[PACKAGE_VERSION, identifier, version])
}

pub fn put_status_request(index: u8, all: bool, out: &mut Payload) -> Result<(), Full>
    requires { IsValid (Cmd.FragSessionStatusReq index all) }
    ensures { Appends out.old out.new (canonical (Cmd.FragSessionStatusReq index all)) result }
{
    out.append(&[SESSION_STATUS, (index << 1) + u8::from(all)])
}

pub fn put_status_answer(
    index: u8,
    received: u16,
    missing: u8,
    norows: bool,
    out: &mut Payload,
) -> Result<(), Full>
    requires { IsValid (Cmd.FragSessionStatusAns index received missing norows) }
    ensures { Appends out.old out.new
        (canonical (Cmd.FragSessionStatusAns index received missing norows)) result }
{
    let [low, high] = ((u16::from(index) << 14) + received).to_le_bytes();
    out.append(&[SESSION_STATUS, low, high, missing, u8::from(norows)])
}

pub fn put_setup_request(
    index: u8,
    mask: u8,
    nb_frag: u16,
    frag_size: u8,
    algo: u8,
    delay: u8,
    padding: u8,
    descriptor: u32,
    out: &mut Payload,
) -> Result<(), Full>
    requires { IsValid
        (Cmd.FragSessionSetupReq index mask nb_frag frag_size algo delay padding descriptor) }
    ensures { Appends out.old out.new
        (canonical (Cmd.FragSessionSetupReq index mask nb_frag frag_size algo delay padding
        descriptor)) result }
{
    let session = (index << 4) + mask;
    let control = (algo << 3) + delay;
    let [low, high] = nb_frag.to_le_bytes();
    let [a, b, c, d] = descriptor.to_le_bytes();
    out.append(&[
        SESSION_SETUP,
        session,
        low,
        high,
        frag_size,
        control,
        padding,
        a,
        b,
        c,
        d,
    ])
}

pub fn put_setup_answer(
    index: u8,
    wrong_descriptor: bool,
    index_unsupported: bool,
    no_memory: bool,
    encoding_unsupported: bool,
    out: &mut Payload,
) -> Result<(), Full>
    requires { IsValid
        (Cmd.FragSessionSetupAns index wrong_descriptor index_unsupported no_memory
        encoding_unsupported) }
    ensures { Appends out.old out.new
        (canonical (Cmd.FragSessionSetupAns index wrong_descriptor index_unsupported no_memory
        encoding_unsupported)) result }
{
    let status = (index << 6)
        + (u8::from(wrong_descriptor) << 3)
        + (u8::from(index_unsupported) << 2)
        + (u8::from(no_memory) << 1)
        + u8::from(encoding_unsupported);
    out.append(&[SESSION_SETUP, status])
}

pub fn put_delete_request(index: u8, out: &mut Payload) -> Result<(), Full>
    requires { IsValid (Cmd.FragSessionDeleteReq index) }
    ensures { Appends out.old out.new (canonical (Cmd.FragSessionDeleteReq index)) result }
{
    out.append(&[SESSION_DELETE, index])
}

pub fn put_delete_answer(index: u8, missing: bool, out: &mut Payload) -> Result<(), Full>
    requires { IsValid (Cmd.FragSessionDeleteAns index missing) }
    ensures { Appends out.old out.new (canonical (Cmd.FragSessionDeleteAns index missing)) result }
{
    out.append(&[SESSION_DELETE, (u8::from(missing) << 2) + index])
}

pub fn put_data_fragment(index: u8, n: u16, bytes: &[u8], out: &mut Payload) -> Result<(), Full>
    requires { IsValid (Cmd.DataFragment index n bytes.now) }
    ensures { Appends out.old out.new (canonical (Cmd.DataFragment index n bytes.now)) result }
{
    if out.room() < FRAGMENT_HEAD_LEN as usize + bytes.len() {
        return Err(Full);
    }
    let [low, high] = ((u16::from(index) << 14) + n).to_le_bytes();
    out.append(&[DATA_FRAGMENT, low, high])?;
    out.append(bytes)
}
