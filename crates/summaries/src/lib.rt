// What a tag is, as text at the front of a lent room: what a rehearsal prints at its end.
#![tactic(auto)]

ghost use Rattle.std.specs.Prelude.{[]};
ghost use Rattle.base.specs.Decide.{pick};
ghost use Rattle.forms.specs.Rooms.{Lays, Writes};
ghost use Rattle.state.specs.State.{reading_in};
ghost use Rattle.summaries.specs.Summary.{uid_of, talk_of, rights_of, mirrors_of, file_of, files_of, summary_of};

use fields::Head;
use forms::Page;
use spans::Reading;
use state::{Files, Live, Pending, Place, Tag};

// The first line, and the UID.
fn uid(u: [u8; 7], page: &mut Page<'_>)
    ensures { Writes (uid_of u) page.old page.new }
{
    let mut digits = [0u8; 14];
    lines::encode(&u, &mut digits);
    page.append(b"The tag now:\n  UID: ");
    page.append(&digits);
}

// The selection, the session's key, a part two that is pending, and the tap counter.
#[tactic(auto, unfolding(crate::specs::Summary::talk_form, crate::specs::Summary::talk_of))]
fn talk(s: Place, l: Live, p: Pending, counter: u32, page: &mut Page<'_>)
    ensures { Writes (talk_of s l p counter) page.old page.new }
{
    page.append_form(
        b"\n  level: {application|PICC}\n  selected file: {none|#}\n  session: {key #, CmdCtr #|none}{, part two pending for key #}\n  tap counter: #\n",
        &[
            u64::from(s.file),
            u64::from(l.key),
            u64::from(l.counter),
            u64::from(p.key),
            u64::from(counter),
        ],
        &[s.application, s.file == 0, l.on, p.on],
    );
}

// A condition is a key's number, E (free) or F (never).
#[tactic(auto, unfolding(crate::specs::Summary::rights_form, crate::specs::Summary::rights_of))]
fn rights(number: u8, h: Head, page: &mut Page<'_>)
    ensures { Writes (rights_of number h) page.old page.new }
{
    page.append_form(
        b"  file #: {Plain}{MAC}{Full}, Read %, Write %, ReadWrite %, Change %",
        &[
            u64::from(number),
            u64::from(h.read),
            u64::from(h.write),
            u64::from(h.read_write),
            u64::from(h.change),
        ],
        &[h.mode == 0, h.mode == 1, h.mode == 3],
    );
}

// The second line of a file with SDM on.
#[tactic(auto, unfolding(crate::specs::Summary::sdm_form, crate::specs::Summary::mirrors_of))]
fn mirrors(r: Reading, page: &mut Page<'_>)
    ensures { Writes (mirrors_of r) page.old page.new }
{
    let h = r.settings.head;
    let p = r.settings.places;
    let uid = r.picc.present && h.uid;
    let counter = r.picc.present && h.counter;
    page.append_form(
        b"\n          SDM on, MetaRead %, FileRead %, CtrRet %{, UID at #}{, counter at #}{, PICCData at #}{ (UID)}{ (counter)}{, ENC at #}{, MAC input at #}{, MAC at #}{, limit at #}",
        &[
            u64::from(h.sdm_meta_read),
            u64::from(h.sdm_file_read),
            u64::from(h.sdm_ctr_ret),
            u64::from(r.uid.start),
            u64::from(r.counter.start),
            u64::from(r.picc.start),
            u64::from(r.enc.start),
            u64::from(p.input),
            u64::from(r.mac.start),
            u64::from(p.limit),
        ],
        &[
            r.uid.present,
            r.counter.present,
            r.picc.present,
            uid,
            counter,
            r.enc.present,
            r.mac.present,
            r.mac.present,
            h.limit,
        ],
    );
}

fn file(f: Files, number: u8, page: &mut Page<'_>)
    ensures { Writes (file_of number (reading_in f number)) page.old page.new }
{
    let r = state::reading_in(f, number);
    let h = r.settings.head;
    rights(number, h, page);
    if h.sdm {
        mirrors(r, page);
    }
    page.append(b"\n");
}

fn files(f: Files, page: &mut Page<'_>)
    ensures { Writes (files_of f) page.old page.new }
{
    file(f, 1, page);
    file(f, 2, page);
    file(f, 3, page);
}

fn tell(tag: Tag, page: &mut Page<'_>)
    ensures { Writes (summary_of tag) page.old page.new }
{
    uid(tag.uid, page);
    talk(tag.place, tag.live, tag.pending, tag.tap.counter, page);
    files(tag.files, page);
}

// What the tag is, at the front of the room, as much as it takes, and how long that is.
pub fn summary(tag: Tag, room: &mut [u8]) -> usize
    ensures { Lays (summary_of tag) 0 room.old result room.new }
{
    let mut page = Page { room, used: 0 };
    tell(tag, &mut page);
    page.used
}
