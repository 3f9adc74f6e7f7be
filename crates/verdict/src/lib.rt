// What is said of a reply: its status, whether that refuses, and whether the reply is other than a plan expected.
#![tactic(auto)]

ghost use Rattle.std.specs.Prelude.{◌≡◌};
ghost use Rattle.verdict.specs.Replies.{status_in, refusing, differing};

// The two status bytes of a reply as a number, and 0 where it has none.
pub fn status_of(reply: &[u8]) -> u16
    ensures { result ≡ status_in reply.now }
{
    if reply.len() < 2 {
        return 0;
    }
    let n = reply.len() - 2;
    u16::from_be_bytes([reply[n], reply[n + 1]])
}

// Whether a status refuses: any but 9000, 9100 and 91AF.
#[tactic(auto, unfolding(crate::specs::Replies::refusing))]
pub fn refuses(status: u16) -> bool
    ensures { result ≡ refusing status }
{
    !matches!(status, 0x9000 | 0x9100 | 0x91AF)
}

// Whether a reply is other than expected: it neither begins with these bytes nor are they its two status bytes.
pub fn differs(expected: &[u8], reply: &[u8]) -> bool
    ensures { result ≡ differing expected.now reply.now }
{
    let n = expected.len();
    if reply.len() < n {
        return true;
    }
    if expected == &reply[..n] {
        return false;
    }
    n != 2 || expected != &reply[reply.len() - 2..]
}
