// Rehearses a plan: on standard input stands the tag's UID, then a command a line in hexadecimal; '#' starts a comment, '/' the
// command's 20 random bytes, and '=' what its reply must be. Prints each exchange, what the tag is then, and last how it went. With
// --image FILE the tag is the one whose image FILE holds, and FILE holds its image then; where there is no FILE, it is made.
#![tactic(auto)]

ghost use Rattle.std.specs.Prelude.{◌≤◌, IfSome};
ghost use Rattle.reading.specs.Counts.{IsPrefixLen};

use arguments::{Asked, BadArguments};
use keeping::NoStart;
use state::Tag;
use std::env::FillError;
use std::io::{ErrorKind, Read};
use std::os::fd::AsRawFd;
use std::random::RandomSource;
use std::rt::{Env, Files};
use tallies::Tally;
use walk::Rehearsal;

mod keep;
mod show;
mod walk;

// The tag of an open file. A byte more than an image has is read too, to see one that is too long.
fn resumed(mut file: impl Read + Drop, uid: &[u8; 7]) -> Result<Tag, NoStart> {
    let mut s = [0u8; 685];
    let n = reading::read_full(&mut file, &mut s);
    drop(file);
    keeping::kept(&s[..n], uid).map_err(|e| e.why)
}

// The tag of the file, or a fresh one where there is no file or none is named.
fn begin(rt: &impl Files, err: &impl Print, path: &[u8], uid: &[u8; 7]) -> Result<Tag, NoStart> {
    let fresh = keeping::anew(uid).map_err(|e| e.why);
    if path.is_empty() {
        return fresh;
    }
    match keep::opened(rt, path) {
        Ok(file) => resumed(file, uid),
        Err(e) => {
            if e.kind() == ErrorKind::NotFound {
                return fresh;
            }
            keep::fail(err, path, e, b"nothing was rehearsed");
            Err(NoStart::Unread)
        }
    }
}

// Says why nothing is rehearsed; of a file that can't be read it is said already.
fn complain(rt: &impl Print, err: &impl Print, path: &[u8], number: u64, why: NoStart) {
    match why {
        NoStart::OtherLength => keep::refuse(
            err,
            path,
            b"it can't be read as an image of 684 bytes",
        ),
        NoStart::EarlierVersion => keep::refuse(
            err,
            path,
            b"this image is of an earlier version; docs/IMAGE.md says what to do with it",
        ),
        NoStart::OtherVersion => keep::refuse(err, path, b"its version is not 2"),
        NoStart::NotABit => keep::refuse(err, path, b"a Boolean in it is neither 0 nor 1"),
        NoStart::Unsound => keep::refuse(err, path, b"its state is not sound"),
        NoStart::OtherUid => keep::refuse(err, path, b"the plan's UID is not its tag's"),
        NoStart::NoUid => show::tell(
            rt,
            b"line #: it must be the tag's UID, 7 bytes in hexadecimal, the first of them 04; nothing was rehearsed\n",
            &[number],
            &[true],
        ),
        NoStart::Unread => {}
    }
}

// Rehearses the lines from an index on, where there is a tag to start from.
fn go_on(
    rt: &(impl Print + RandomSource),
    err: &impl Print,
    path: &[u8],
    start: Result<Tag, NoStart>,
    text: &[u8],
    from: usize,
    number: u64,
) -> Option<Rehearsal>
    requires { number ≤ from }
{
    match start {
        Ok(tag) => {
            let r = walk::steps(rt, tag, text, from, number);
            show::summary(rt, r.tag);
            Some(r)
        }
        Err(why) => {
            complain(rt, err, path, number, why);
            None
        }
    }
}

// The tag that a run starts from, where the line is its UID.
fn first_tag(rt: &impl Files, err: &impl Print, path: &[u8], line: &[u8]) -> Result<Tag, NoStart> {
    match first_lines::line_uid(line) {
        Some(uid) => begin(rt, err, path, &uid),
        None => Err(NoStart::NoUid),
    }
}

// Rehearses a plan: the first line that is not blank is the UID.
fn run(
    rt: &(impl Files + Print + RandomSource),
    err: &impl Print,
    path: &[u8],
    text: &[u8],
) -> Option<Rehearsal> {
    let h = first_lines::first_line(text);
    let start = first_tag(rt, err, path, &text[h.start..h.end]);
    go_on(rt, err, path, start, text, h.end + 1, h.number)
}

// Reads a plan into a room that is larger than any, and rehearses it.
fn play_in(
    rt: &(impl Files + Input + Print + RandomSource),
    err: &impl Print,
    path: &[u8],
    text: &mut [u8],
) -> Option<Rehearsal> {
    let mut input = rt.reader();
    let n = reading::read_full(&mut input, text);
    if n == text.len() {
        let _ = rt.write_all(b"a plan has fewer than 262144 characters; nothing was rehearsed\n");
        return None;
    }
    run(rt, err, path, &text[..n])
}

// Reads and rehearses the plan. The path is empty where no tag is kept.
fn play(
    rt: &(impl Files + Input + Print + RandomSource),
    err: &impl Print,
    path: &[u8],
) -> Option<Rehearsal> {
    let mut text = [0u8; 262144];
    play_in(rt, err, path, &mut text)
}

// The same with FILE.new held: then it holds the tag, and the file does.
fn play_held<R: Files + Input + Print + RandomSource>(
    rt: &R,
    err: &impl Print,
    file: R::File,
    path: &[u8],
    name: &[u8],
) -> Tally {
    match play(rt, err, path) {
        Some(r) => {
            keep::store(rt, err, file, path, name, r.tag);
            r.tally
        }
        None => {
            keep::release(rt, file, name);
            tallies::none()
        }
    }
}

// The same with a file whose name is whole: FILE.new is held from here to the end.
fn play_target(
    rt: &(impl Files + Input + Print + RandomSource),
    err: &impl Print,
    path: &[u8],
) -> Tally {
    let mut name = [0u8; 4096];
    let Some(n) = arguments::beside(path, &mut name) else {
        return tallies::none();
    };
    match keep::hold(rt, err, &name[..n]) {
        Some(file) => play_held(rt, err, file, path, &name[..n]),
        None => tallies::none(),
    }
}

// An argument that is not empty, at the front of the room, and its length, where the room has place for it.
fn argument(rt: &impl Env, i: usize, room: &mut [u8]) -> Option<usize>
    ensures { IfSome result (λ n. IsPrefixLen n room.new) }
{
    match rt.arg(i, room) {
        Ok(0) | Err(_) => None,
        Ok(n) => Some(n),
    }
}

// How many arguments there are, the program's name among them.
fn argument_count(rt: &impl Env) -> usize {
    for i in 0..usize::MAX {
        let mut a = [0u8; 1];
        if let Err(FillError::NotPresent) = rt.arg(i, &mut a) {
            return i;
        }
    }
    usize::MAX
}

// The same with the file that --image names, links followed. Its name and .new must be a path.
fn play_kept<R: Files + Env + Input + Print + RandomSource + Alloc>(
    rt: &R,
    err: &impl Print,
) -> Tally
where
    R::File: AsRawFd,
{
    let mut path = [0u8; 4091];
    let mut to = [0u8; 4091];
    let Some(n) = argument(rt, 2, &mut path) else {
        let _ = err.write_all(
            b"rehearse: the FILE of --image is empty or too long; nothing was rehearsed\n",
        );
        return tallies::none();
    };
    match keep::target(rt, err, &path[..n], &mut to) {
        Some(m) => play_target(rt, err, &to[..m]),
        None => tallies::none(),
    }
}

fn unknown(err: &impl Print, argument: &[u8]) {
    keep::warn(
        err,
        b"rehearse: unknown argument ",
        argument,
        b"; the plan comes on standard input\n",
    );
}

// Names an argument that is not known. One that is empty or has more than 256 bytes is named so.
fn refuse_argument(rt: &impl Env, err: &impl Print, i: usize) {
    let mut a = [0u8; 256];
    match argument(rt, i, &mut a) {
        Some(n) => unknown(err, &a[..n]),
        None => unknown(err, b"(empty or too long)"),
    }
}

// What the arguments ask for.
fn started<R: Files + Env + Input + Print + RandomSource + Alloc>(
    rt: &R,
    err: &impl Print,
    asked: Result<Asked, BadArguments>,
) -> Tally
where
    R::File: AsRawFd,
{
    match asked {
        Ok(Asked::Plain) => match play(rt, err, b"") {
            Some(r) => r.tally,
            None => tallies::none(),
        },
        Ok(Asked::Image) => play_kept(rt, err),
        Err(BadArguments::NoFile) => {
            let _ = err.write_all(b"rehearse: --image needs a FILE\n");
            tallies::none()
        }
        Err(BadArguments::Unknown(i)) => {
            refuse_argument(rt, err, i);
            tallies::none()
        }
    }
}

// Whether the first argument is --image.
fn names_image(rt: &impl Env) -> bool {
    let mut a = [0u8; 256];
    match argument(rt, 1, &mut a) {
        Some(n) => base::alike(&a[..n], b"--image"),
        None => false,
    }
}

fn main(rt: HostRuntime) {
    let err = rt.stderr();
    let a = arguments::asks(argument_count(&rt), names_image(&rt));
    show::last(&rt, started(&rt, &err, a));
}
