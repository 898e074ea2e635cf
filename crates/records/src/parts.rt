// Parts of a slice that end where it ends, and a test of all of its bytes.
ghost use Rattle.std.specs.Prelude.{◌≡◌, take, drop, get_or};
ghost use Rattle.records.specs.Symbols.{zeros};

/// The byte at a place, and 0 past the end.
pub fn byte_at(s: &[u8], i: usize) -> u8
    ensures { result ≡ get_or s.now i 0 }
{
    s.get(i).copied().unwrap_or(0)
}

/// What stands from a place on, and nothing past the end.
pub fn rest(s: &[u8], from: usize) -> &[u8]
    ensures { result.now ≡ drop from s.now }
{
    s.get(from..).unwrap_or(&[])
}

/// The first n bytes, or all where there are fewer.
pub fn front(s: &[u8], n: usize) -> &[u8]
    ensures { result.now ≡ take n s.now }
{
    s.get(..n).unwrap_or(s)
}

/// The n bytes from a place on, as far as there are.
pub fn part(s: &[u8], from: usize, n: usize) -> &[u8]
    ensures { result.now ≡ take n (drop from s.now) }
{
    front(rest(s, from), n)
}

/// Is each byte 0?
#[tactic(auto, using(crate::proofs::Laws::walk), unfolding(crate::specs::Symbols::zeros))]
pub fn zeros(s: &[u8]) -> bool
    ensures { result ≡ zeros s.now }
{
    for &b in s {
        if b != 0 {
            return false;
        }
    }
    true
}
