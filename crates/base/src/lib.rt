// What every floor uses: total reads, bytes laid into a lent room, two slices compared, numbers low byte first.
#![tactic(auto)]

ghost use Rattle.std.specs.Prelude.{◌≡◌};
ghost use Rattle.base.specs.Bytes.{byte_at, same, laid, number, low};

// The byte at an index, and 0 past the end.
pub fn at(s: &[u8], i: usize) -> u8
    ensures { result ≡ byte_at s.now i }
{
    s.get(i).copied().unwrap_or(0)
}

// Whether two slices hold the same bytes.
pub fn alike(a: &[u8], b: &[u8]) -> bool
    ensures { result ≡ same a.now b.now }
{
    a == b
}

// Lays src over dst from an index on. Where it does not fit, dst stays as it is.
pub fn put(src: &[u8], dst: &mut [u8], at: usize)
    ensures { dst.new ≡ laid src.now at dst.old }
{
    if at <= dst.len() && src.len() <= dst.len() - at {
        dst[at..at + src.len()].copy_from_slice(src);
    }
}
