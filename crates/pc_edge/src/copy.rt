//! How bytes in memory are given to a buffer, piece by piece.
ghost use Rattle.std.specs.Prelude.{◌≡◌, ◌+◌, ◌-◌, ◌<◌, ◌++◌, [], length, take, drop, min};

/// Copies the bytes from a place on into the front of a buffer: as many as fit and as are left, and
/// at most so many. Says how many they were.
pub(crate) fn give(bytes: &[u8], at: usize, most: usize, buf: &mut [u8]) -> usize
    ensures count { result ≡ min (min most (length buf.old)) (length bytes.now - at) }
    ensures given { drop at bytes.now ≡ take result buf.new ++ drop (at + result) bytes.now }
    ensures end { result ≡ 0 → 0 < length buf.new → 0 < most → drop (at + result) bytes.now ≡ [] }
{
    let left = bytes.len().saturating_sub(at);
    let count = most.min(buf.len()).min(left);
    if count > 0 {
        let end = at + count;
        buf[..count].copy_from_slice(&bytes[at..end]);
    }
    count
}
