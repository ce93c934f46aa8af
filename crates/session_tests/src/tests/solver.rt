//! Solvers over a few pieces of one byte, by worked rows and against plain sums of lines, and over pieces of many sizes.

use crate::tests::plain::excess;
use frag_model::gains::{plain_gain, plain_line_of};
use frag_model::lines::MAX_PARITY_INDEX;
use parity_lines::line_uncounted;
use row_elimination::*;
use std::alloc::Global;
use std::marker::Model;
use std::process::Abort;
use std::test::*;

/// A solver with a file, so many pieces of so many bytes, and its stage after what it answered.
#[derive(Drop)]
struct Receiver<const W: usize, const B: usize> {
    solver: Solver<W, B>,
    nb_frag: u16,
    frag_size: u8,
    stage: Stage,
}

impl<const W: usize, const B: usize> Model for Receiver<W, B> {
    ghost use Rattle.std.specs.Prelude.{◌≡◌};
    ghost use Rattle.row_elimination.specs.HeldSolver.{Held};

    ghost Value = { Held };

    ghost view = { λ r. r.solver };

    ghost invariant = { λ r. (r.stage ≡ r.solver.stage) × (r.nb_frag ≡ r.solver.shape.nb_frag)
        × (r.frag_size ≡ r.solver.shape.frag_size) };
}

impl<const W: usize, const B: usize> Receiver<W, B> {
    /// A solver with a new file.
    fn begin(
        rt: &impl Abort,
        mut solver: Solver<W, B>,
        nb_frag: u16,
        frag_size: u8,
        rows: u16,
    ) -> Receiver<W, B> {
        assert!(rt; 1 <= nb_frag && nb_frag <= 4096 && rows <= nb_frag);
        assert!(rt; 1 <= frag_size && frag_size <= 239);
        if solver.begin(nb_frag, frag_size, 0, rows).is_err() {
            panic!(rt; "no room");
        }
        Receiver {
            solver,
            nb_frag,
            frag_size,
            stage: Stage::Receiving,
        }
    }

    fn feed(&mut self, rt: &impl Abort, n: u16, part: &[u8]) -> Fed {
        assert!(rt; self.stage == Stage::Receiving);
        assert!(rt; 1 <= n && n as u32 <= self.nb_frag as u32 + MAX_PARITY_INDEX as u32);
        assert!(rt; part.len() == self.frag_size as usize);
        let fed = self.solver.feed(n, part);
        self.stage = match fed {
            Fed::Receiving => Stage::Receiving,
            Fed::Complete => Stage::Complete,
            Fed::NoRows | Fed::Conflict => Stage::Ended,
        };
        fed
    }

    fn missing(&self) -> u16 {
        self.solver.missing()
    }

    fn block(&self, rt: &impl Abort) -> &[u8] {
        assert!(rt; self.stage == Stage::Complete);
        self.solver.block()
    }
}

type SmallReceiver = Receiver<16, 64>;

/// What a solver answers after fragments, and shows.
struct Row<'a> {
    rows: u16,
    fragments: &'a [(u16, u8)],
    answer: Fed,
    missing: u16,
    block: &'a [u8],
}

fn begun(rt: &impl Abort, alloc: Global, pieces: u16, rows: u16) -> SmallReceiver {
    match Solver::reserve(alloc, 64) {
        Ok(solver) => Receiver::begin(rt, solver, pieces, 1, rows),
        Err(_) => panic!(rt; "no memory"),
    }
}

/// The answer to the last of the fragments.
fn fed(rt: &impl Abort, receiver: &mut SmallReceiver, fragments: &[(u16, u8)]) -> Fed {
    let mut answer = Fed::Receiving;
    for (n, byte) in fragments {
        answer = receiver.feed(rt, *n, &[*byte]);
    }
    answer
}

fn shows(rt: &impl Abort, alloc: Global, pieces: u16, row: &Row) {
    let mut receiver = begun(rt, alloc, pieces, row.rows);
    assert!(rt; fed(rt, &mut receiver, row.fragments) == row.answer);
    assert!(rt; receiver.missing() == row.missing);
    if row.answer == Fed::Complete {
        assert!(rt; receiver.block(rt) == row.block);
    }
    drop(receiver);
}

const WHOLE: [u8; 4] = [0x11, 0x22, 0x33, 0x44];

/// Solvers of four pieces.
static FOUR: [Row<'static>; 12] = [
    Row {
        rows: 0,
        fragments: &[(4, 0x44), (1, 0x11), (3, 0x33), (2, 0x22)],
        answer: Fed::Complete,
        missing: 0,
        block: &WHOLE,
    },
    Row {
        rows: 2,
        fragments: &[(1, 0x11), (3, 0x33), (7, 0x66), (8, 0x11)],
        answer: Fed::Complete,
        missing: 0,
        block: &WHOLE,
    },
    Row {
        rows: 2,
        fragments: &[(7, 0x66), (8, 0x11), (1, 0x11), (3, 0x33)],
        answer: Fed::Complete,
        missing: 0,
        block: &WHOLE,
    },
    Row {
        rows: 2,
        fragments: &[(1, 0x11), (5, 0x22), (6, 0x22)],
        answer: Fed::Receiving,
        missing: 2,
        block: &[],
    },
    Row {
        rows: 1,
        fragments: &[(1, 0x11), (2, 0x22), (3, 0x33), (11, 0x44)],
        answer: Fed::Complete,
        missing: 0,
        block: &WHOLE,
    },
    Row {
        rows: 1,
        fragments: &[(7, 0x66), (8, 0x11)],
        answer: Fed::NoRows,
        missing: 3,
        block: &[],
    },
    Row {
        rows: 1,
        fragments: &[(1, 0x11), (3, 0x33), (7, 0x66), (8, 0x11)],
        answer: Fed::NoRows,
        missing: 1,
        block: &[],
    },
    Row {
        rows: 0,
        fragments: &[(1, 0x11), (1, 0x12)],
        answer: Fed::Conflict,
        missing: 3,
        block: &[],
    },
    Row {
        rows: 0,
        fragments: &[(2, 0x22), (2, 0x22), (2, 0x22)],
        answer: Fed::Receiving,
        missing: 3,
        block: &[],
    },
    Row {
        rows: 2,
        fragments: &[(7, 0x66), (1, 0x11), (8, 0x11), (1, 0x11), (3, 0x33)],
        answer: Fed::Complete,
        missing: 0,
        block: &WHOLE,
    },
    Row {
        rows: 2,
        fragments: &[(7, 0x66), (1, 0x11), (1, 0x10)],
        answer: Fed::Conflict,
        missing: 2,
        block: &[],
    },
    Row {
        rows: 2,
        fragments: &[(11, 0x44), (4, 0x44), (5, 0x22), (6, 0x23)],
        answer: Fed::Conflict,
        missing: 2,
        block: &[],
    },
];

/// Solvers of one piece, for which a coded fragment is not new.
static ONE: [Row<'static>; 2] = [
    Row {
        rows: 1,
        fragments: &[(2, 0), (1, 0x5a)],
        answer: Fed::Complete,
        missing: 0,
        block: &[0x5a],
    },
    Row {
        rows: 1,
        fragments: &[(2, 1)],
        answer: Fed::Conflict,
        missing: 1,
        block: &[],
    },
];

#[test]
fn four_pieces(rt: HostRuntime) {
    for row in &FOUR {
        shows(&rt, rt.alloc(), 4, row);
    }
}

#[test]
fn one_piece(rt: HostRuntime) {
    for row in &ONE {
        shows(&rt, rt.alloc(), 1, row);
    }
}

/// The byte of fragment `n` of a file whose piece `k` is `k + 1`.
fn byte_of(rt: &impl Abort, pieces: u16, n: u16) -> u8 {
    assert!(rt; 1 <= pieces && pieces <= 64);
    assert!(rt; 1 <= n && n <= pieces + MAX_PARITY_INDEX);
    let line = plain_line_of(pieces, n);
    let mut byte = 0;
    for k in 0..pieces {
        if line >> k & 1 == 1 {
            byte ^= (k + 1) as u8;
        }
    }
    byte
}

/// What all sums of the lines of the numbers, newest first and at most 16, lead to, and how many pieces they leave to be
/// gained.
fn by_sums(
    rt: &impl Abort,
    alloc: Global,
    pieces: u16,
    rows: u16,
    numbers: &[u16],
) -> (Fed, usize) {
    assert!(rt; 1 <= pieces && pieces <= 64 && numbers.len() <= 16);
    let mut lines = [0; 16];
    for (at, n) in numbers.iter().enumerate() {
        assert!(rt; 1 <= *n && *n <= pieces + MAX_PARITY_INDEX);
        lines[at] = plain_line_of(pieces, *n);
    }
    let gain = plain_gain(&lines[..numbers.len()]);
    let answer = if excess(rt, alloc, pieces, numbers) > rows as usize {
        Fed::NoRows
    } else if gain == pieces as usize {
        Fed::Complete
    } else {
        Fed::Receiving
    };
    (answer, (pieces as usize).saturating_sub(gain))
}

/// Feeds the fragments with these numbers, the last of them first, until something is decided.
fn follows_sums(
    rt: &impl Abort,
    alloc: Global,
    receiver: &mut SmallReceiver,
    pieces: u16,
    rows: u16,
    numbers: &[u16],
) {
    for at in 0..numbers.len() {
        let heard = &numbers[numbers.len() - 1 - at..];
        let answer = receiver.feed(rt, heard[0], &[byte_of(rt, pieces, heard[0])]);
        let (expected, missing) = by_sums(rt, alloc, pieces, rows, heard);
        assert!(rt; answer == expected);
        if answer != Fed::Receiving {
            return;
        }
        assert!(rt; receiver.missing() as usize == missing);
    }
}

fn agrees(rt: &impl Abort, alloc: Global, pieces: u16, rows: u16, numbers: &[u16]) {
    let mut receiver = begun(rt, alloc, pieces, rows);
    follows_sums(rt, alloc, &mut receiver, pieces, rows, numbers);
    drop(receiver);
}

/// Pieces, rows, and the numbers of fragments, newest first.
static SUMS: [(u16, u16, &[u16]); 12] = [
    (1, 0, &[1, 2]),
    (1, 1, &[1, 2, 5]),
    (2, 0, &[1, 2, 2]),
    (2, 2, &[2, 1, 4, 3]),
    (3, 1, &[3, 2, 1, 7, 6, 5, 4]),
    (3, 3, &[9, 8, 7, 6, 5, 4]),
    (4, 4, &[10, 9, 8, 7, 6, 5, 11]),
    (5, 2, &[5, 10, 4, 9, 3, 8, 2, 7, 1, 6]),
    (5, 5, &[1, 2, 3, 4, 5, 6, 7, 8, 9, 10]),
    (8, 3, &[8, 7, 6, 5, 12, 4, 3, 3, 11, 2, 1, 10, 9]),
    (8, 8, &[20, 19, 18, 17, 16, 15, 14, 13, 12, 11, 10, 9]),
    (9, 4, &[4, 2, 14, 13, 12, 11, 10, 9, 7, 5, 3, 1]),
];

#[test]
fn answers_are_those_of_all_sums(rt: HostRuntime) {
    for (pieces, rows, numbers) in &SUMS {
        agrees(&rt, rt.alloc(), *pieces, *rows, numbers);
    }
}

/// Two words and ten bytes for rows, and an area of 20 bytes.
fn little(rt: &impl Abort, alloc: Global, pieces: u16) -> Solver<2, 10> {
    assert!(rt; pieces <= 4096);
    match Solver::reserve_for(alloc, 20, pieces) {
        Ok(solver) => solver,
        Err(_) => panic!(rt; "no memory"),
    }
}

fn fits(rt: &impl Abort, solver: &Solver<2, 10>, nb_frag: u16, frag_size: u8, rows: u16) -> bool {
    assert!(rt; nb_frag <= 4096 && frag_size <= 239 && rows <= nb_frag);
    solver.fits(nb_frag, frag_size, rows)
}

/// Pieces, their bytes, rows, and whether there is room.
static ROOMS: [(u16, u8, u16, bool); 9] = [
    (0, 0, 0, true),
    (64, 0, 2, true),
    (65, 0, 1, true),
    (65, 0, 2, false),
    (4, 5, 2, true),
    (4, 5, 3, false),
    (4, 6, 1, false),
    (20, 1, 0, true),
    (21, 1, 0, false),
];

#[test]
fn room_is_needed_for_rows_and_for_pieces(rt: HostRuntime) {
    let solver = little(&rt, rt.alloc(), 4096);
    for (nb_frag, frag_size, rows, room) in &ROOMS {
        assert!(rt; fits(&rt, &solver, *nb_frag, *frag_size, *rows) == *room);
    }
    drop(solver);
}

#[test]
fn room_is_needed_for_the_number_of_pieces(rt: HostRuntime) {
    let few = little(&rt, rt.alloc(), 5);
    assert!(rt; fits(&rt, &few, 5, 1, 2) && !fits(&rt, &few, 6, 1, 2));
    drop(few);
}

#[test]
fn a_file_begins_where_there_is_room(rt: HostRuntime) {
    let mut solver = little(&rt, rt.alloc(), 4096);
    assert!(rt; solver.begin(4, 5, 4, 3) == Err(NoRoom));
    assert!(rt; solver.begin(4, 5, 4, 2) == Ok(()));
    assert!(rt; solver.missing() == 4);
    drop(solver);
}

/// Byte `i` of piece `k`.
fn byte_in(k: usize, i: usize) -> u8 {
    ((k % 251) as u8).wrapping_mul(7) ^ ((i % 256) as u8).wrapping_mul(13) ^ (k % 5) as u8
}

/// Adds piece `k`.
fn add(part: &mut [u8; 239], k: u16) {
    for (i, byte) in part.iter_mut().enumerate() {
        *byte ^= byte_in(k as usize, i);
    }
}

/// Piece `k`.
fn piece(k: u16) -> [u8; 239] {
    let mut part = [0; 239];
    add(&mut part, k);
    part
}

/// The coded fragment `n` of so many pieces, summed plainly.
fn coded(rt: &impl Abort, pieces: u16, n: u16) -> [u8; 239] {
    assert!(rt; 1 <= n && n <= MAX_PARITY_INDEX && 1 <= pieces && pieces <= 70);
    let mut words = [0; 2];
    line_uncounted(n, pieces, &mut words);
    let mut part = [0; 239];
    for k in 0..pieces {
        if words[k as usize / 64] >> (k % 64) & 1 == 1 {
            add(&mut part, k);
        }
    }
    part
}

type LargeReceiver = Receiver<16, 1912>;

/// A solver of eight rows for so many pieces of so many bytes.
fn made(rt: &impl Abort, alloc: Global, pieces: u16, size: u8) -> LargeReceiver {
    match Solver::reserve(alloc, 16730) {
        Ok(solver) => Receiver::begin(rt, solver, pieces, size, 8),
        Err(_) => panic!(rt; "no memory"),
    }
}

/// Each tenth piece is lost, and the others are fed.
fn feeds_most(rt: &impl Abort, receiver: &mut LargeReceiver, pieces: u16, size: u8) {
    assert!(rt; pieces <= 70 && size <= 239);
    for k in 0..pieces {
        if k % 10 != 3 {
            let fed = receiver.feed(rt, k + 1, &piece(k)[..size as usize]);
            assert!(rt; fed == Fed::Receiving);
        }
    }
}

/// Feeds coded fragments until all pieces are there.
fn feeds_coded(rt: &impl Abort, receiver: &mut LargeReceiver, pieces: u16, size: u8) {
    assert!(rt; pieces <= 70 && size <= 239);
    for n in 1..40u16 {
        let part = coded(rt, pieces, n);
        if receiver.feed(rt, pieces + n, &part[..size as usize]) == Fed::Complete {
            return;
        }
    }
    panic!(rt; "it never ends");
}

/// Whether these are all bytes of the pieces.
fn is_whole(block: &[u8], pieces: u16, size: u8) -> bool {
    if size == 0 || block.len() != pieces as usize * size as usize {
        return false;
    }
    for (place, byte) in block.iter().enumerate() {
        if *byte != byte_in(place / size as usize, place % size as usize) {
            return false;
        }
    }
    true
}

/// Recovers a file; each tenth piece of it comes only by coded fragments.
fn recovers(rt: &impl Abort, alloc: Global, pieces: u16, size: u8) {
    let mut receiver = made(rt, alloc, pieces, size);
    feeds_most(rt, &mut receiver, pieces, size);
    feeds_coded(rt, &mut receiver, pieces, size);
    assert!(rt; is_whole(receiver.block(rt), pieces, size));
    drop(receiver);
}

static PIECES: [u16; 5] = [8, 63, 64, 65, 70];

static SIZES: [u8; 11] = [1, 3, 31, 32, 63, 64, 65, 127, 128, 191, 239];

#[test]
fn pieces_of_many_sizes(rt: HostRuntime) {
    for pieces in &PIECES {
        for size in &SIZES {
            recovers(&rt, rt.alloc(), *pieces, *size);
        }
    }
}
