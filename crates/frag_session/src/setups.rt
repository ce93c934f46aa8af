//! What a session's setup asks for, and when it is refused.

ghost use Rattle.std.specs.Prelude.{◌≡◌, ◌≤◌, nat_le};
ghost use Rattle.frag_session.specs.Setup.{rows_of, too_long, wrong_coding, too_large, other_descriptor, bit_where, setup_bits, lives};

use frag_model::lines::MAX_PIECES;
use row_elimination::Solver;

/// The most bytes of a fragment, so that one fits a payload of 242 bytes.
pub const MAX_FRAGMENT: u8 = 239;

/// The fields of FragSessionSetupReq (TS004-1.0.0), from which a session is made.
#[derive(Clone, Copy, Debug, PartialEq, Eq)]
pub struct SetupReq {
    /// FragIndex, the session's place.
    pub index: u8,
    /// Bit g: multicast group g may feed the session.
    pub mask: u8,
    /// NbFrag, the number of pieces.
    pub nb_frag: u16,
    /// FragSize, the bytes of each fragment.
    pub frag_size: u8,
    /// FragAlgo; 0 is the standard's parity code.
    pub algo: u8,
    /// BlockAckDelay, for answers by multicast.
    pub delay: u8,
    /// Zero bytes at the end of the last piece.
    pub padding: u8,
    /// The descriptor, which names the file.
    pub descriptor: u32,
}

/// What a device accepts.
#[derive(Clone, Copy, Debug)]
pub struct Limits {
    /// The number of session indices.
    pub sessions: u8,
    /// Rows kept for coded fragments.
    pub rows: u16,
    /// The only descriptor that is accepted, where there is one.
    pub descriptor: Option<u32>,
}

/// Returns all refusal bits of a setup over the room that a solver has, with so many bytes of flash where the session is kept
/// there; 0 where it is accepted.
#[tactic(auto, unfolding(crate::specs::Setup::setup_bits))]
pub fn refusal<const W: usize, const B: usize>(
    solver: &Solver<W, B>,
    req: SetupReq,
    limits: Limits,
    span: Option<u32>,
) -> u8
    ensures { result ≡ setup_bits limits
        (record { words = W; bytes = B; extent = solver.now.extent; span = span }) req }
{
    let coding = bit(has_wrong_coding(req), 1);
    let size = bit(is_too_large(solver, req, limits.rows, span), 2);
    let index = bit(req.index >= limits.sessions, 4);
    let descriptor = bit(has_other_descriptor(limits.descriptor, req.descriptor), 8);
    coding + size + index + descriptor
}

/// Returns the rows of a session: as many as are kept, and no more than there are pieces.
pub fn rows_of(rows: u16, req: SetupReq) -> u16
    ensures value { result ≡ rows_of rows req }
    ensures few { result ≤ req.nb_frag }
{
    rows.min(req.nb_frag)
}

#[tactic(auto, unfolding(crate::specs::Setup::lives, crate::specs::Setup::same_setup))]
/// Says whether a session that was made from `setup` stays at this request.
pub fn lives(session: Option<SetupReq>, req: SetupReq) -> bool
    ensures { result ≡ lives session req }
{
    match session {
        None => false,
        Some(setup) => setup == req,
    }
}

#[tactic(auto, unfolding(crate::specs::Setup::wrong_coding))]
fn has_wrong_coding(req: SetupReq) -> bool
    ensures { result ≡ wrong_coding req }
{
    req.algo != 0 || req.nb_frag == 0 || req.frag_size == 0 || req.padding >= req.frag_size
}

#[tactic(auto, unfolding(crate::specs::Setup::too_large))]
fn is_too_large<const W: usize, const B: usize>(
    solver: &Solver<W, B>,
    req: SetupReq,
    rows: u16,
    span: Option<u32>,
) -> bool
    ensures { result ≡ too_large
        (record { words = W; bytes = B; extent = solver.now.extent; span = span }) rows req }
{
    is_too_long(span, req)
        || req.nb_frag > MAX_PIECES
        || req.frag_size > MAX_FRAGMENT
        || !solver.fits(req.nb_frag, req.frag_size, rows_of(rows, req))
}

/// Says whether a session takes more flash than there is for it.
fn is_too_long(span: Option<u32>, req: SetupReq) -> bool
    ensures { result ≡ too_long span req }
{
    match span {
        None => false,
        Some(span) => {
            span < 24_640 + (2 * u32::from(req.nb_frag) + 1) * (10 + u32::from(req.frag_size))
        }
    }
}

#[tactic(auto, unfolding(crate::specs::Setup::other_descriptor))]
fn has_other_descriptor(wanted: Option<u32>, descriptor: u32) -> bool
    ensures { result ≡ other_descriptor wanted descriptor }
{
    match wanted {
        None => false,
        Some(wanted) => descriptor != wanted,
    }
}

/// The value of a bit that is set.
fn bit(set: bool, value: u8) -> u8
    ensures value { result ≡ bit_where set value }
    ensures most { result ≤ value }
{
    if set { value } else { 0 }
}
