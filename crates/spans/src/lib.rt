// The spans of the mirrors, and what a settings string means with them, whether it is good or not.
#![tactic(auto)]

ghost use Rattle.std.specs.Prelude.{◌≡◌};
ghost use Rattle.fields.specs.Fields.{read_of};
ghost use Rattle.spans.specs.Spans.{span, uid_span, counter_span, picc_span, enc_span, mac_span, reading_of, end_of, inside, apart, all_apart};

use fields::Settings;

// Bytes of the file that a mirror takes; one that is not there starts at 0 and has none.
#[derive(Clone, Copy, Debug, PartialEq, Eq)]
pub struct Span {
    pub present: bool,
    pub start: u32,
    pub size: u32,
}

// What a string means, with the spans of its mirrors.
#[derive(Clone, Copy, Debug, PartialEq, Eq)]
pub struct Reading {
    pub settings: Settings,
    pub uid: Span,
    pub counter: Span,
    pub picc: Span,
    pub enc: Span,
    pub mac: Span,
}

#[tactic(auto, unfolding(crate::specs::Spans::span))]
fn span_of(present: bool, at: u32, n: u32) -> Span
    ensures { result ≡ span present at n }
{
    let (start, size) = if present { (at, n) } else { (0, 0) };
    Span {
        present,
        start,
        size,
    }
}

#[tactic(auto, unfolding(crate::specs::Spans::uid_span))]
fn uid_span(r: Settings) -> Span
    ensures { result ≡ uid_span r }
{
    span_of(fields::has_uid(r.head), r.places.uid, 14)
}

#[tactic(auto, unfolding(crate::specs::Spans::counter_span))]
fn counter_span(r: Settings) -> Span
    ensures { result ≡ counter_span r }
{
    span_of(fields::has_counter(r.head), r.places.counter, 6)
}

#[tactic(auto, unfolding(crate::specs::Spans::picc_span))]
fn picc_span(r: Settings) -> Span
    ensures { result ≡ picc_span r }
{
    span_of(fields::has_picc(r.head), r.places.picc, 32)
}

#[tactic(auto, unfolding(crate::specs::Spans::enc_span))]
fn enc_span(r: Settings) -> Span
    ensures { result ≡ enc_span r }
{
    span_of(fields::has_enc(r.head), r.places.enc, r.places.size)
}

#[tactic(auto, unfolding(crate::specs::Spans::mac_span))]
fn mac_span(r: Settings) -> Span
    ensures { result ≡ mac_span r }
{
    span_of(fields::has_mac(r.head), r.places.mac, 16)
}

// The record of a string with its spans.
#[tactic(auto, unfolding(crate::specs::Spans::reading_of))]
pub fn reading_of(r: Settings) -> Reading
    ensures { result ≡ reading_of r }
{
    Reading {
        settings: r,
        uid: uid_span(r),
        counter: counter_span(r),
        picc: picc_span(r),
        enc: enc_span(r),
        mac: mac_span(r),
    }
}

// The place behind a span.
fn end_of(a: Span) -> u64
    ensures { result ≡ end_of a }
{
    u64::from(a.start) + u64::from(a.size)
}

// Whether a span lies inside a file of 256 bytes.
#[tactic(auto, unfolding(crate::specs::Spans::inside))]
pub fn is_inside(a: Span) -> bool
    ensures { result ≡ inside a }
{
    end_of(a) <= 256
}

// Whether two spans share no byte.
#[tactic(auto, unfolding(crate::specs::Spans::apart))]
fn are_apart(a: Span, b: Span) -> bool
    ensures { result ≡ apart a b }
{
    end_of(a) <= u64::from(b.start) || end_of(b) <= u64::from(a.start)
}

// Whether no two of the spans share a byte. The search ends at the first pair that does.
pub fn all_apart(spans: [Span; 5]) -> bool
    ensures { result ≡ all_apart spans }
{
    let mut clear = true;
    'pairs: for (i, &a) in spans.iter().enumerate() {
        for &b in &spans[i + 1..] {
            clear = are_apart(a, b);
            if !clear {
                break 'pairs;
            }
        }
    }
    clear
}

// What the bytes mean, whether the string is good or not: 0 stands for a byte that is not there.
pub fn meaning(s: &[u8]) -> Reading
    ensures { result ≡ reading_of (read_of s.now) }
{
    reading_of(fields::settings_of(s))
}
