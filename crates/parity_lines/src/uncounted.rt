//! Lines for callers that count nothing.

ghost use Rattle.std.specs.Prelude.{◌*◌, ◌≤◌, length};
ghost use Rattle.parity_lines.specs.Counts.{IsBlankOf};
ghost use Rattle.parity_lines.specs.Lines.{IsLine};

use crate::lines::line;
use crate::steps::Steps;
use frag_model::lines::{MAX_PARITY_INDEX, MAX_PIECES};
use std::marker::Brand;
use std::sync::ledger::{Blank, Ledger};

/// Draws a line, as `line` does, with nothing counted.
pub fn line_uncounted(n: u16, cols: u16, out: &mut [u64])
    requires first { 1 ≤ n }
    requires last { n ≤ MAX_PARITY_INDEX }
    requires some { 1 ≤ cols }
    requires most { cols ≤ MAX_PIECES }
    requires room { cols ≤ 64 * length out.old }
    ensures { IsLine n cols out.new }
{
    line_over::<Brand>(n, cols, out, Blank::new(1))
}

fn line_over<L: Ledger>(n: u16, cols: u16, out: &mut [u64], blank: Blank)
    requires first { 1 ≤ n }
    requires last { n ≤ MAX_PARITY_INDEX }
    requires some { 1 ≤ cols }
    requires most { cols ≤ MAX_PIECES }
    requires room { cols ≤ 64 * length out.old }
    requires blank { IsBlankOf L.name L.parts blank.name blank.parts }
    ensures { IsLine n cols out.new }
{
    let mut steps = Steps::<L>::new(blank);
    line(n, cols, out, &mut steps)
}
