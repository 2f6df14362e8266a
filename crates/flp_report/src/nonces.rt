//! The nonces of reports that were counted before.
ghost use Rattle.std.specs.Prelude.{◌≡◌, ◌+◌, ◌*◌, ◌<◌, ◌≤◌, length, IfOk, IfErr, IfSome, take, drop, nat_eq, slice_get, None, Some};
ghost use Rattle.flp_report.specs.Pieces.{pieces, fall_in};

/// A list of nonces of 16 bytes each, one after the other, each above the one before as bytes compare.
#[derive(Debug, Drop)]
pub struct Nonces {
    count: u32,
    bytes: Vec<u8>,
    ghost whole: { length bytes.items ≡ 16 * count },
    ghost rising: { fall_in (pieces 16 count bytes.items) ≡ None },
}

/// The nonce of this number among these, from 0.
fn nonce_at(bytes: &[u8], index: u32) -> &[u8]
    requires { 16 * index + 16 ≤ length bytes.now }
    ensures { result.now ≡ take 16 (drop (16 * index) bytes.now) }
{
    let start = 16 * index as usize;
    &bytes[start..start + 16]
}

/// The number of the first of these nonces that is not above the one before.
fn first_fall(count: u32, bytes: &[u8]) -> Option<u32>
    requires { length bytes.now ≡ 16 * count }
    ensures first { result ≡ fall_in (pieces 16 count bytes.now) }
    ensures place { IfSome result (λ number. (1 ≤ number) × (number < count)) }
{
    for index in 1..count {
        if !nonce_at(bytes, index - 1)
            .cmp(&nonce_at(bytes, index))
            .is_lt()
        {
            return Some(index);
        }
    }
    None
}

impl Nonces {
    ghost use Rattle.flp_report.specs.Nonces.{nonce_bytes, nonce_count, nonces_in};

    /// The nonces in these bytes, or the number of the first that is not above the one before.
    pub(crate) fn from_vec(count: u32, bytes: Vec<u8>) -> Result<Nonces, u32>
        requires { length bytes.items ≡ 16 * count }
        ensures bytes { IfOk result (λ nonces. nonce_bytes nonces ≡ bytes.items) }
        ensures count { IfOk result (λ nonces. nonce_count nonces ≡ count) }
        ensures fall { IfErr result (λ number. fall_in (pieces 16 count bytes.items) ≡ Some number) }
        ensures place { IfErr result (λ number. (1 ≤ number) × (number < count)) }
    {
        match first_fall(count, bytes.as_slice()) {
            Some(number) => Err(number),
            None => Ok(Nonces { count, bytes }),
        }
    }

    /// How many nonces there are.
    pub fn len(&self) -> u32
        ensures { result ≡ nonce_count self.now }
    {
        self.count
    }

    /// Whether there is none.
    pub fn is_empty(&self) -> bool
        ensures { result ≡ nat_eq (nonce_count self.now) 0 }
    {
        self.count == 0
    }

    /// The 16 bytes of the nonce of this number, from 0.
    pub fn at(&self, index: u32) -> &[u8]
        requires { index < nonce_count self.now }
        ensures bytes { result.now ≡ take 16 (drop (16 * index) (nonce_bytes self.now)) }
        ensures numbered { slice_get (nonces_in self.now) index ≡ Some result.now }
    {
        nonce_at(self.bytes.as_slice(), index)
    }

    /// All nonces, one after the other.
    pub(crate) fn as_bytes(&self) -> &[u8]
        ensures { result.now ≡ nonce_bytes self.now }
    {
        self.bytes.as_slice()
    }
}
