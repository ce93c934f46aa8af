//! A file cut into pieces, and its fragments.

ghost use Rattle.std.specs.Prelude.{◌≡◌, ◌↔◌, ◌+◌, ◌*◌, ◌/◌, ◌^◌, ◌<◌, ◌≤◌, ◌++◌, length, replicate, Err, OnOk, OnErr, IfOk};
ghost use Rattle.parity_lines.specs.Counts.{IsBlankOf};
ghost use Rattle.frag_encoder.specs.Encoding.{Encoding, IsBadSize, nb_frag_of, padding_of};
ghost use Rattle.frag_encoder.specs.Fragments.{CountsWork, GivesFragment, IsWritten, MayWrite};

use crate::answers::{Beyond, EncoderError};
use crate::xoring::{piece_at, xor_line};
use arrayvec::ArrayVec;
use frag_model::lines::{MAX_PARITY_INDEX, MAX_PIECES};
use parity_lines::Steps;
use std::alloc::{AllocError, Global};
use std::marker::{Brand, Model};
use std::sync::ledger::{Blank, Ledger};

/// The most bytes of a fragment that fits a payload (TS004-1.0.0, DataFragment).
pub const MAX_FRAGMENT: usize = 239;

/// A file in pieces of one size, and each of its fragments (TS004-1.0.0). It keeps a copy of the file.
#[derive(Drop)]
pub struct Encoder {
    bytes: Vec<u8>,
    frag_size: u8,
    nb_frag: u16,
    padding: u8,
}

impl Model for Encoder {
    ghost use Rattle.std.specs.Prelude.{◌-◌, length, take};
    ghost use Rattle.frag_encoder.specs.Encoding.{Encoding, IsFilled};

    ghost Value = { Encoding };

    ghost view = { λ e. record { file = take (length e.bytes.items - e.padding) e.bytes.items; frag_size = e.frag_size } };

    ghost invariant = { λ e. IsFilled e.bytes.items e.frag_size e.nb_frag e.padding };
}

impl Encoder {
    /// Makes an encoder of the file in pieces of `frag_size` bytes. `BadSize` comes exactly where the file is empty, `frag_size`
    /// is 0 or above 239, or there are more than 4,096 pieces; `Memory` where there is no memory for the copy.
    pub fn new(alloc: Global, file: &[u8], frag_size: u8) -> Result<Encoder, EncoderError>
        ensures ok { IfOk result (λ e. e ≡ record { file = file.now; frag_size = frag_size }) }
        ensures bad_size { (result ≡ Err EncoderError.BadSize)
            ↔ IsBadSize (length file.now) frag_size }
    {
        let size = frag_size as usize;
        if file.is_empty() || size == 0 || size > MAX_FRAGMENT {
            return Err(EncoderError::BadSize);
        }
        let nb_frag = file.len().div_ceil(size);
        if nb_frag > MAX_PIECES as usize {
            return Err(EncoderError::BadSize);
        }
        let padding = nb_frag * size - file.len();
        match fill(alloc, file, padding) {
            Ok(bytes) => Ok(Encoder {
                bytes,
                frag_size,
                nb_frag: nb_frag as u16,
                padding: padding as u8,
            }),
            Err(_) => Err(EncoderError::Memory),
        }
    }

    /// Returns the file.
    pub fn file(&self) -> &[u8]
        ensures { result.now ≡ self.now.file }
    {
        let end = self.bytes.len() - self.padding as usize;
        &self.bytes[..end]
    }

    /// Returns how many pieces the file has, NbFrag, 1 to 4,096: its length over a piece's, rounded up.
    pub fn nb_frag(&self) -> u16
        ensures value { result ≡ nb_frag_of (length self.now.file) self.now.frag_size }
        ensures some { 1 ≤ result }
        ensures most { result ≤ MAX_PIECES }
    {
        self.nb_frag
    }

    /// Returns how many zero bytes fill the last piece up, fewer than a piece has.
    pub fn padding(&self) -> u8
        ensures value { result ≡ padding_of (length self.now.file) self.now.frag_size }
        ensures short { result < self.now.frag_size }
    {
        self.padding
    }

    /// Replaces what `out` holds by the data of fragment `n`: piece `n`, counted from 1, and after the last piece the XOR of the
    /// pieces in the line of coded fragment `n` (TS004-1.0.0). `Beyond`, with `out` as it was, comes exactly where `n` is 0 or
    /// more than 8,380 above the number of pieces. It takes no memory.
    pub fn fragment(&self, n: u16, out: &mut ArrayVec<u8, MAX_FRAGMENT>) -> Result<(), Beyond>
        ensures { GivesFragment self.now.file self.now.frag_size n out.old out.new result }
    {
        self.fragment_over::<Brand, Brand>(n, out, Blank::new(1), Blank::new(1))
    }

    fn fragment_over<L: Ledger, M: Ledger>(
        &self,
        n: u16,
        out: &mut ArrayVec<u8, MAX_FRAGMENT>,
        no_draws: Blank,
        no_sums: Blank,
    ) -> Result<(), Beyond>
        requires draws { IsBlankOf L.name L.parts no_draws.name no_draws.parts }
        requires sums { IsBlankOf M.name M.parts no_sums.name no_sums.parts }
        ensures { GivesFragment self.now.file self.now.frag_size n out.old out.new result }
    {
        let mut draws = Steps::<L>::new(no_draws);
        let mut sums = Steps::<M>::new(no_sums);
        self.fragment_counted(n, out, &mut draws, &mut sums)
    }

    /// Makes a fragment, as `fragment` does, and counts its work: the states of the register that are drawn for the fragment's
    /// line, and the pieces that are summed, each the XOR of its bytes into the fragment's. `Beyond` costs none.
    pub fn fragment_counted<L: Ledger, M: Ledger>(
        &self,
        n: u16,
        out: &mut ArrayVec<u8, MAX_FRAGMENT>,
        draws: &mut Steps<L>,
        sums: &mut Steps<M>,
    ) -> Result<(), Beyond>
        ensures fragment { GivesFragment self.now.file self.now.frag_size n out.old out.new result }
        ensures counted { OnOk result (CountsWork (nb_frag_of (length self.now.file)
            self.now.frag_size) n draws.old draws.new sums.old sums.new) }
        ensures few_draws { draws.new ≤ draws.old
            + 25 * (nb_frag_of (length self.now.file) self.now.frag_size / 2) }
        ensures few_sums { sums.new
            ≤ sums.old + nb_frag_of (length self.now.file) self.now.frag_size / 2 }
        ensures idle { OnErr result ((draws.new ≡ draws.old) × (sums.new ≡ sums.old)) }
    {
        if n == 0 || n > self.nb_frag + MAX_PARITY_INDEX {
            return Err(Beyond);
        }
        let size = self.frag_size as usize;
        let mut part = [0; MAX_FRAGMENT];
        let part = &mut part[..size];
        write_data(n, self.nb_frag, size, &self.bytes, part, draws, sums);
        replace(out, part);
        Ok(())
    }
}

/// Copies the file, and so many zeros after it.
fn fill(alloc: Global, file: &[u8], padding: usize) -> Result<Vec<u8>, AllocError>
    requires { length file.now + padding < 2 ^ 63 }
    ensures { IfOk result (λ bytes. bytes.items ≡ file.now ++ replicate padding 0) }
{
    let mut bytes = Vec::with_capacity(alloc, file.len() + padding)?;
    bytes.extend_from_slice(file)?;
    bytes.resize(file.len() + padding, 0)?;
    Ok(bytes)
}

/// Replaces what `out` holds.
fn replace(out: &mut ArrayVec<u8, MAX_FRAGMENT>, part: &[u8])
    requires { length part.now ≤ MAX_FRAGMENT }
    ensures { out.new.items ≡ part.now }
{
    out.clear();
    // (there is room: a part has at most 239 bytes)
    let _ = out.try_extend_from_slice(part);
}

/// Writes the data of fragment `n` of pieces of `size` bytes. Counts the states that are drawn for its line, and the pieces
/// that are summed.
fn write_data<L: Ledger, M: Ledger>(
    n: u16,
    nb_frag: u16,
    size: usize,
    bytes: &[u8],
    part: &mut [u8],
    draws: &mut Steps<L>,
    sums: &mut Steps<M>,
)
    requires { MayWrite n nb_frag size bytes.now part.old }
    ensures written { IsWritten n nb_frag size bytes.now part.new }
    ensures counted { CountsWork nb_frag n draws.old draws.new sums.old sums.new }
    ensures few_draws { draws.new ≤ draws.old + 25 * (nb_frag / 2) }
    ensures few_sums { sums.new ≤ sums.old + nb_frag / 2 }
{
    if n <= nb_frag {
        part.copy_from_slice(piece_at(bytes, size, n as usize - 1));
    } else {
        let columns = nb_frag as usize;
        let mut words = [0; MAX_PIECES as usize / 64];
        let line = &mut words[..columns.div_ceil(64)];
        parity_lines::line(n - nb_frag, nb_frag, line, draws);
        part.fill(0);
        xor_line(line, columns, bytes, part, sums);
    }
}
