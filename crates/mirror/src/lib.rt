// The mirrors of a tap (9.3): laid over file 2, never stored.
#![tactic(auto)]

ghost use Rattle.std.specs.Prelude.{true, ◌≡◌, ◌+◌, ◌-◌, ◌*◌, ◌/◌, ◌%◌, ◌≤◌, length};
ghost use Rattle.cbc.specs.Cbc.{cbc_out};
ghost use Rattle.key_expansion.specs.Keys.{key_expansion};
ghost use Rattle.aes.specs.Block.{counted};
ghost use Rattle.cmac.specs.Cmac.{mac, cmac_cost};
ghost use Rattle.sdm.specs.Tap.{tap_iv, hidden_cost};
ghost use Rattle.spans.specs.Spans.{end_of, SpansFit};
ghost use Rattle.mirror.specs.Mirrors.{mirror_at, stretch, high_first, with_uid, with_counter, with_picc, enc_data, with_enc, with_mac, dynamic_data};
ghost use Rattle.mirror.specs.Mirrors.{picc_mirror_cost, enc_mirror_cost, mac_mirror_cost, dynamic_cost};

use aes::Counted;
use sdm::Tap;
use spans::{Reading, Span};

// What a tap mirrors, with which keys and which padding.
#[derive(Clone, Copy, Debug, PartialEq, Eq)]
pub struct Mirror {
    pub tap: Tap,
    pub meta_key: [u8; 16],
    pub file_key: [u8; 16],
    pub padding: [u8; 12],
}

// Bytes as capital hexadecimal over the file, at a span that is present and inside it.
fn lay_hex(file: [u8; 256], s: Span, text: &[u8]) -> [u8; 256]
    requires { s.present ≡ true → s.start + length text.now * 2 ≤ 256 }
    ensures { result ≡ mirror_at s text.now file }
{
    if s.present {
        let at = s.start as usize;
        let e = at + text.len() * 2;
        let mut f = file;
        lines::encode(text, &mut f[at..e]);
        return f;
    }
    file
}

// A counter's three bytes, high byte first.
#[tactic(auto, unfolding(crate::specs::Mirrors::high_first))]
fn high_first(counter: u32) -> [u8; 3]
    ensures { result ≡ high_first counter }
{
    let [_, a, b, c] = counter.to_be_bytes();
    [a, b, c]
}

// UID, counter and PICCData.
fn lay_picc(file: [u8; 256], r: Reading, m: Mirror) -> Counted<256>
    requires { SpansFit r }
    ensures { result ≡ counted (with_picc r m (with_counter r m (with_uid r m file))) (picc_mirror_cost r) }
{
    let f = lay_hex(file, r.uid, &m.tap.uid);
    let g = lay_hex(f, r.counter, &high_first(m.tap.counter));
    if r.picc.present {
        let p = sdm::picc_data(m.meta_key, m.tap, m.padding);
        return Counted {
            bytes: lay_hex(g, r.picc, &p.bytes),
            cost: p.cost,
        };
    }
    Counted { bytes: g, cost: 0 }
}

// A text of whole blocks, encrypted, over the file.
fn lay_hidden(
    file: [u8; 256],
    s: Span,
    key: [u8; 16],
    counter: u32,
    text: &mut [u8],
) -> Counted<256>
    requires text_len { length text.old % 16 ≡ 0 }
    requires text_bound { s.start + length text.old * 2 ≤ 256 }
    ensures { result ≡ counted (mirror_at s (cbc_out (key_expansion key) (tap_iv key counter) text.old) file) (hidden_cost (length text.old)) }
{
    let cost = sdm::tap_encrypt(key, counter, text).unwrap();
    Counted {
        bytes: lay_hex(file, s, text),
        cost,
    }
}

// The first half of the ENC span as stored, as far as it is whole blocks, encrypted, over the span.
fn hide(stored: [u8; 256], file: [u8; 256], s: Span, key: [u8; 16], counter: u32) -> Counted<256>
    requires { end_of s ≤ 256 }
    ensures { result ≡ counted (mirror_at s (enc_data key counter s stored) file) (hidden_cost (s.size / 2)) }
{
    let at = s.start as usize;
    let e = at + (s.size / 32 * 16) as usize;
    let mut text = stored;
    lay_hidden(file, s, key, counter, &mut text[at..e])
}

// ENC, under its key of the tap.
fn lay_enc(stored: [u8; 256], file: [u8; 256], r: Reading, m: Mirror) -> Counted<256>
    requires { SpansFit r }
    ensures { result ≡ counted (with_enc r m stored file) (enc_mirror_cost r) }
{
    if r.enc.present {
        let k = sdm::tap_enc_key(m.file_key, m.tap);
        let h = hide(stored, file, r.enc, k.bytes, m.tap.counter);
        let bytes = h.bytes;
        return Counted {
            bytes,
            cost: k.cost + h.cost,
        };
    }
    Counted {
        bytes: file,
        cost: 0,
    }
}

// The MAC of the file from a to before e, of nothing where a lies behind e.
fn mac_between(file: [u8; 256], a: usize, e: usize, key: [u8; 16]) -> Counted<8>
    requires { e ≤ 256 }
    ensures { result ≡ counted (mac key (stretch a e file)) (cmac_cost (e - a)) }
{
    if a <= e {
        return sdm::tap_mac(key, &file[a..e]);
    }
    sdm::tap_mac(key, &file[e..e])
}

// The MAC of the mirrored text from an input start to before the MAC, under its key of the tap.
fn lay_mac(file: [u8; 256], r: Reading, m: Mirror) -> Counted<256>
    requires { SpansFit r }
    ensures { result ≡ counted (with_mac r m file) (mac_mirror_cost r) }
{
    if r.mac.present {
        let k = sdm::tap_mac_key(m.file_key, m.tap);
        let input = r.settings.places.input as usize;
        let t = mac_between(file, input, r.mac.start as usize, k.bytes);
        return Counted {
            bytes: lay_hex(file, r.mac, &t.bytes),
            cost: k.cost + t.cost,
        };
    }
    Counted {
        bytes: file,
        cost: 0,
    }
}

// Every mirror that the settings name, over file 2; each key only where it is needed.
pub fn lay(file: [u8; 256], r: Reading, m: Mirror) -> Counted<256>
    requires { SpansFit r }
    ensures { result ≡ counted (dynamic_data file r m) (dynamic_cost r) }
{
    let p = lay_picc(file, r, m);
    let e = lay_enc(file, p.bytes, r, m);
    let c = lay_mac(e.bytes, r, m);
    let bytes = c.bytes;
    Counted {
        bytes,
        cost: p.cost + e.cost + c.cost,
    }
}
