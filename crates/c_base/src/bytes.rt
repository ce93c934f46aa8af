//! Bytes into C's memory.

ghost use Rattle.c_base.specs.Bytes.{Copied, Whole};

/// Copies bytes to the front of `into`, where they have room there, and returns their count; 0 where they have none.
pub fn put_whole(bytes: &[u8], into: &mut [u8]) -> usize
    ensures { Whole bytes.now into.old into.new result }
{
    let count = bytes.len();
    if count > into.len() {
        return 0;
    }
    into[..count].copy_from_slice(bytes);
    count
}

/// Copies the bytes from an offset on to the front of `into`, as many as there are and have room, and returns their count.
pub fn copy_part(file: &[u8], offset: usize, into: &mut [u8]) -> usize
    ensures { Copied file.now offset into.old into.new result }
{
    if offset >= file.len() {
        return 0;
    }
    let count = (file.len() - offset).min(into.len());
    into[..count].copy_from_slice(&file[offset..offset + count]);
    count
}
