// The files of data/, which the scripts of reference/ make, and the numbers in them.
ghost use Rattle.std.specs.Prelude.{◌+◌, ◌≡◌, ◌≤◌, length, vec_len};
ghost use Rattle.arrayvec.specs.ArrayVec.{array_vec_len};
ghost use Rattle.check_records.specs.Records.{due, u16_at, u32_at};

use arrayvec::ArrayVec;
use std::io::Read;
use std::rt::Files;
use std::{fs, io};

// Reads a file's bytes: none where it does not open, or has MOST bytes or more. A read that fails ends them, as the file's end does.
// Into an array and no Vec: that bytes are missing where memory runs out would show as fewer comparisons alone. It is lent, so that
// it is not copied.
pub fn read_into<const MOST: usize, R: Files>(rt: &R, path: &str, bytes: &mut ArrayVec<u8, MOST>)
    ensures { array_vec_len bytes.new ≤ MOST }
{
    bytes.clear();
    let Ok(file) = fs::open(rt, path) else {
        return;
    };
    let _ = io::copy(&mut file.take(MOST as u64), bytes);
    if bytes.is_full() {
        bytes.clear();
    }
}

// A file's bytes, as `read_into` has them, where the length that is too long is known only as the program runs. Where memory runs
// out they end as at a read that fails, so a program that counts them takes `read_into`.
pub fn read<R: Files + AllocGlobal>(rt: &R, path: &str, most: usize) -> Vec<u8>
    ensures { vec_len result ≤ most }
{
    let mut bytes = Vec::new(rt.alloc());
    let Ok(file) = fs::open(rt, path) else {
        return bytes;
    };
    let _ = file.take(most as u64).read_to_end(&mut bytes);
    if bytes.len() >= most {
        bytes.clear();
    }
    bytes
}

// The 16-bit number at a place, low byte first.
// block has such a function; this one is written again, so that a wrong one shows as a difference.
pub fn u16_at(bytes: &[u8], at: usize) -> u16
    requires { at + 2 ≤ length bytes.now }
    ensures { result ≡ u16_at bytes.now at }
{
    u16::from_le_bytes([bytes[at], bytes[at + 1]])
}

// The 32-bit number at a place, low byte first.
pub fn u32_at(bytes: &[u8], at: usize) -> u32
    requires { at + 4 ≤ length bytes.now }
    ensures { result ≡ u32_at bytes.now at }
{
    u32::from_le_bytes([bytes[at], bytes[at + 1], bytes[at + 2], bytes[at + 3]])
}

// What a record's number says of its values: 0 that they are due; another is the number of the refusal that is.
pub fn due<T: Drop>(number: u32, values: T) -> Result<T, u32>
    ensures { result ≡ due number values }
{
    if number == 0 { Ok(values) } else { Err(number) }
}

#[cfg(test)]
mod tests {
    use super::*;

    #[test]
    fn reads_what_is_short_enough(rt: HostRuntime) -> io::Result<()> {
        fs::write(&rt, "five", b"12345")?;
        let whole = read(&rt, "five", 6);
        let too_long = read(&rt, "five", 5);
        fs::remove_file(&rt, "five")?;
        assert_eq!(rt; whole.as_slice(), b"12345".as_slice());
        assert_eq!(rt; too_long.len(), 0);
        assert_eq!(rt; read(&rt, "five", 6).len(), 0, "not there any more");
        Ok(())
    }
}
