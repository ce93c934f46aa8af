//! The columns of a line that are known.

ghost use Rattle.std.specs.Prelude.{◌≡◌, ◌*◌, ◌≤◌, length};
ghost use Rattle.row_arena.specs.Limits.{max_width};
ghost use Rattle.row_arena.specs.Sums.{ArePicked};

/// Takes the known columns out of a line, lists them in front of `picks`, and returns how many there are. Line and known columns
/// have as many words (at most 1,024), the lowest first, and `picks` has room for all their columns.
pub fn pick(line: &mut [u64], known: &[u64], picks: &mut [u16]) -> usize
    requires same { length line.old ≡ length known.now }
    requires room { 64 * length line.old ≤ length picks.old }
    requires most { length line.old ≤ max_width }
    ensures { ArePicked result line.old line.new known.now picks.new }
{
    let mut count = 0;
    for i in 0..line.len() {
        let mut left = line[i] & known[i];
        line[i] ^= left;
        while left != 0 {
            let t = left.trailing_zeros();
            picks[count] = (i * 64) as u16 + t as u16;
            count += 1;
            left &= left - 1;
        }
    }
    count
}
