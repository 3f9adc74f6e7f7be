// The parts of an image, from those of a state.
ghost use Rattle.std.specs.Prelude.{◌≡◌, [], ◌∷◌, ◌+◌, length};
ghost use Rattle.base.specs.Bytes.{low};
ghost use Rattle.image.specs.Image.{image_version, join, file_pieces, secret_pieces, live_pieces, pending_pieces, tap_pieces, image_of};

use state::{Files, Live, Pending, Secrets, Tag, Tapping};

fn file_bytes(f: Files) -> [u8; 500]
    ensures { result ≡ join (file_pieces f) }
{
    let mut s = [0; 500];
    base::put(&f.bytes, &mut s, 0);
    base::put(&f.rules, &mut s, 416);
    base::put(&f.lens, &mut s, 497);
    s
}

fn secret_bytes(k: Secrets) -> [u8; 85]
    ensures { result ≡ join (secret_pieces k) }
{
    let mut s = [0; 85];
    base::put(&k.keys, &mut s, 0);
    base::put(&k.versions, &mut s, 80);
    s
}

// Four pieces and a CmdCtr, one behind the other, over bytes of their length. The pieces have lengths of their own types, so that
// each is copied in place and the library needs no memmove from outside.
fn with_counter<const P: usize, const R: usize>(
    p: &[u8; P],
    q: &[u8; 16],
    r: &[u8; R],
    ti: &[u8; 4],
    counter: u16,
    s: &mut [u8],
)
    requires { length p.now + (length q.now + (length r.now + (length ti.now + 2))) ≡ length s.old }
    ensures { s.new ≡ join (p.now ∷ q.now ∷ r.now ∷ ti.now ∷ low 2 counter ∷ []) }
{
    let i = p.len();
    let j = i + q.len();
    let k = j + r.len();
    let l = k + ti.len();
    base::put(p, s, 0);
    base::put(q, s, i);
    base::put(r, s, j);
    base::put(ti, s, k);
    base::put(&counter.to_le_bytes(), s, l);
}

fn live_bytes(l: Live) -> [u8; 40]
    ensures { result ≡ join (live_pieces l) }
{
    let mut s = [0; 40];
    with_counter(
        &[u8::from(l.on), l.key],
        &l.enc,
        &l.mac,
        &l.ti,
        l.counter,
        &mut s,
    );
    s
}

fn pending_bytes(p: Pending) -> [u8; 31]
    ensures { result ≡ join (pending_pieces p) }
{
    let head = [u8::from(p.on), u8::from(p.first), p.key];
    let mut s = [0; 31];
    with_counter(&head, &p.rnd_b, &p.cap, &p.ti, p.counter, &mut s);
    s
}

fn tap_bytes(t: Tapping) -> [u8; 18]
    ensures { result ≡ join (tap_pieces t) }
{
    let mut s = [0; 18];
    base::put(&[u8::from(t.on), u8::from(t.iso)], &mut s, 0);
    base::put(&t.counter.to_le_bytes(), &mut s, 2);
    base::put(&t.padding, &mut s, 6);
    s
}

// The version and the parts, one behind the other, over an image.
fn joined(
    uid: &[u8],
    files: &[u8],
    secrets: &[u8],
    live: &[u8],
    pending: &[u8],
    place: &[u8],
    tap: &[u8],
    s: &mut [u8],
)
    requires { (length uid.now ≡ 7) × (length files.now ≡ 500) × (length secrets.now ≡ 85) × (length live.now ≡ 40)
        × (length pending.now ≡ 31) × (length place.now ≡ 2) × (length tap.now ≡ 18) × (length s.old ≡ 684) }
    ensures { s.new ≡ join ((image_version ∷ []) ∷ uid.now ∷ files.now ∷ secrets.now ∷ live.now
        ∷ pending.now ∷ place.now ∷ tap.now ∷ []) }
{
    base::put(b"\x02", s, 0);
    base::put(uid, s, 1);
    base::put(files, s, 8);
    base::put(secrets, s, 508);
    base::put(live, s, 593);
    base::put(pending, s, 633);
    base::put(place, s, 664);
    base::put(tap, s, 666);
}

// The image of a state, over bytes of its length.
pub fn lay_image(t: Tag, s: &mut [u8])
    requires { length s.old ≡ 684 }
    ensures { s.new ≡ image_of t }
{
    let place = [u8::from(t.place.application), t.place.file];
    let files = file_bytes(t.files);
    let secrets = secret_bytes(t.secrets);
    let live = live_bytes(t.live);
    let pending = pending_bytes(t.pending);
    let tap = tap_bytes(t.tap);
    joined(&t.uid, &files, &secrets, &live, &pending, &place, &tap, s);
}
