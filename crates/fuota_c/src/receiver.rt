//! A receiver of one file at a time.

ghost use Rattle.std.specs.Prelude.{◌≡◌, None, Option};
ghost use Rattle.frag_session.specs.Session.{Session, view_of, status_of};
ghost use Rattle.frag_session.specs.declared.answers.Via.TheVariants.{Unicast};
ghost use Rattle.c_base.specs.Answer.{no_object, no_receiver};
ghost use Rattle.c_base.specs.Calls.{Does, Tells};
ghost use Rattle.fuota_c.specs.Shown.{IsShown};
ghost use Rattle.fuota_c.specs.Receiver.{IsNewReceiver, SetsUp, HearsOrNot, IsFileCopy, IsStatus, ReceiverStands, answer_bytes, setup_of, size_of};

use crate::receiver_handle::ReceiverHandle;
use crate::shown::{ViewFields, file_in, show};
use crate::size::size_of;
use crate::sized_receiver::{Receiver, hear, new_receiver, set_up, status, view};
use c_base::answer::{DONE, NO_MEMORY, NO_OBJECT, NO_RECEIVER, RANGE};
use c_base::{Handle, copy_part, put_whole};
use cast_wire::{Cmd, FRAGMENT_PORT};
use frag_session::SetupReq;
use package_grammar::{Command, spelled};
use std::alloc::Global;
use wire_base::{Direction, MAX_PAYLOAD, Payload};

/// The fields of FragSessionSetupReq (TS004-1.0.0).
#[repr(C)]
#[derive(Drop)]
pub struct SetupFields {
    pub descriptor: u32,
    pub nb_frag: u16,
    pub frag_size: u8,
    pub index: u8,
    pub mask: u8,
    pub algo: u8,
    pub delay: u8,
    pub padding: u8,
}

/// Frees what was there, and puts a new receiver of a size, with no session, into the handle: done; out of range at a size above
/// 2, or no memory, and then there is no receiver. Size 0 takes 256 pieces of 48 bytes and keeps 16 rows, 1 takes 1,024 of 48 and
/// keeps 64, 2 takes 4,096 of 64 and keeps 256.
#[unsafe(no_mangle)]
pub extern "C" fn fuota_receiver_new(handle: &mut ReceiverHandle, alloc: Global, size: u8) -> u8
    ensures { IsNewReceiver size handle.new.held result }
{
    fuota_receiver_free(handle, alloc);
    let Some(size) = size_of(size) else {
        return RANGE;
    };
    let Ok(receiver) = new_receiver(alloc, size) else {
        return NO_MEMORY;
    };
    let Ok(receiver) = Box::new(alloc, receiver) else {
        return NO_MEMORY;
    };
    // What the handle had is dropped.
    let _none = handle.replace(Handle::of(receiver)).into_box();
    DONE
}

/// Frees the receiver, where there is one; the handle has none afterwards.
#[unsafe(no_mangle)]
pub extern "C" fn fuota_receiver_free(handle: &mut ReceiverHandle, alloc: Global)
    ensures { handle.new.held ≡ None }
{
    // It is dropped here, and its memory with it.
    let _receiver = handle.replace(Handle::none(alloc)).into_box();
}

/// Takes a FragSessionSetupReq and returns all refusal bits of its answer, 0 where it has a session; 255 where there is no
/// receiver.
#[unsafe(no_mangle)]
pub extern "C" fn fuota_receiver_set_up(
    handle: &mut ReceiverHandle,
    alloc: Global,
    setup: &SetupFields,
) -> u8
    ensures { Does handle.old.held handle.new.held
        (λ x y. SetsUp x y (setup_of setup.now) result) (result ≡ no_receiver) }
{
    match handle.get_mut() {
        None => NO_RECEIVER,
        Some(receiver) => set_up(receiver, request_of(setup)),
    }
}

fn request_of(setup: &SetupFields) -> SetupReq
    ensures { result ≡ setup_of setup.now }
{
    SetupReq {
        index: setup.index,
        mask: setup.mask,
        nb_frag: setup.nb_frag,
        frag_size: setup.frag_size,
        algo: setup.algo,
        delay: setup.delay,
        padding: setup.padding,
        descriptor: setup.descriptor,
    }
}

/// Takes a payload of port 201, by unicast, with a mark that the caller chooses: done; out of range at more than 242 bytes.
#[unsafe(no_mangle)]
pub extern "C" fn fuota_receiver_hear(
    handle: &mut ReceiverHandle,
    alloc: Global,
    payload: &[u8],
    mark: u64,
) -> u8
    ensures { Does handle.old.held handle.new.held
        (λ x y. HearsOrNot x y payload.now mark result) (result ≡ no_object) }
{
    let Some(receiver) = handle.get_mut() else {
        return NO_OBJECT;
    };
    if payload.len() > MAX_PAYLOAD {
        return RANGE;
    }
    hear(receiver, payload, mark);
    DONE
}

/// Writes what the session shows: done, or nothing where there is no session.
#[unsafe(no_mangle)]
pub extern "C" fn fuota_receiver_view(
    handle: &mut ReceiverHandle,
    alloc: Global,
    out: &mut ViewFields,
) -> u8
    ensures same { handle.new.held ≡ handle.old.held }
    ensures view { Tells handle.old.held
        (λ x. (s : Option Session) → ReceiverStands (size_of x) x s
        → IsShown (view_of s) out.old out.new result)
        ((result ≡ no_object) × (out.new ≡ out.old)) }
{
    match handle.get_mut() {
        None => NO_OBJECT,
        Some(receiver) => show(view(receiver), out),
    }
}

/// Copies bytes of the whole file, from the offset on, as many as there are and have room, and returns their count.
#[unsafe(no_mangle)]
pub extern "C" fn fuota_receiver_file(
    handle: &mut ReceiverHandle,
    alloc: Global,
    offset: usize,
    into: &mut [u8],
) -> usize
    ensures same { handle.new.held ≡ handle.old.held }
    ensures file { Tells handle.old.held
        (λ x. (s : Option Session) → ReceiverStands (size_of x) x s
        → IsFileCopy (view_of s) offset into.old into.new result)
        ((result ≡ 0) × (into.new ≡ into.old)) }
{
    match handle.get_mut() {
        None => 0,
        Some(receiver) => copy_part(file_in(view(receiver)), offset, into),
    }
}

/// Writes a FragSessionStatusAns, as the bytes to send, to the front of `answer`, and returns their count; 0 where none is to be
/// sent or where they have no room, which is 5 bytes.
#[unsafe(no_mangle)]
pub extern "C" fn fuota_receiver_status(
    handle: &mut ReceiverHandle,
    alloc: Global,
    all: bool,
    answer: &mut [u8],
) -> usize
    ensures same { handle.new.held ≡ handle.old.held }
    ensures status { Tells handle.old.held
        (λ x. (s : Option Session) → ReceiverStands (size_of x) x s
        → IsStatus s all answer.old answer.new result)
        ((result ≡ 0) × (answer.new ≡ answer.old)) }
{
    match handle.get_mut() {
        None => 0,
        Some(receiver) => put_whole(status_bytes(receiver, all).as_slice(), answer),
    }
}

fn status_bytes(receiver: &Receiver, all: bool) -> Payload
    ensures { (s : Option Session) → ReceiverStands (size_of receiver.now) receiver.now s
        → result ≡ answer_bytes (status_of s Unicast all) }
{
    match status(receiver, all) {
        None => Payload::new(),
        Some(status) => {
            let command = Command::Cast(Cmd::FragSessionStatusAns {
                index: 0,
                received: status.received,
                missing: status.missing,
                norows: status.norows,
            });
            spelled(FRAGMENT_PORT, Direction::Up, &command)
        }
    }
}
