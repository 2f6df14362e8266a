// What the sources over memory share.
ghost use Rattle.std.specs.Prelude.{◌≡◌, length, min, take};

// Copies the front of `from` to that of `to`: as many bytes as both have, and at most `most`.
pub(crate) fn copy_front(from: &[u8], most: usize, to: &mut [u8]) -> usize
    ensures count { result ≡ min (min (length from.now) most) (length to.new) }
    ensures copied { take result to.new ≡ take result from.now }
{
    let count = from.len().min(most).min(to.len());
    to[..count].copy_from_slice(&from[..count]);
    count
}
