// A tag that is kept between runs: its image (docs/IMAGE.md) in a file.
ghost use Rattle.std.specs.Prelude.{◌≡◌, IfOk, IfSome};
ghost use Rattle.reading.specs.Counts.{IsPrefixLen};

use state::Tag;
use std::fmt::InlineText;
use std::fs::{self, OpenFile, OpenOptions, Permissions};
use std::io::{self, Error, ErrorKind, Write};
use std::os::fd::AsRawFd;
use std::os::unix::fs::{OpenOptionsExt, PermissionsExt};
use std::rt::Files;
use std::str;

// Three texts on standard error.
pub fn warn(err: &impl Print, a: &[u8], b: &[u8], c: &[u8]) {
    let _ = err.write_all(a);
    let _ = err.write_all(b);
    let _ = err.write_all(c);
}

// Names a file that a run can't start from, and why.
pub fn refuse(err: &impl Print, path: &[u8], why: &[u8]) {
    warn(err, b"rehearse: ", path, b": ");
    warn(err, why, b"; nothing was rehearsed", b"\n");
}

// Says what a call on a file failed for, and what follows. The text is the C library's, without the error's number behind it.
pub fn fail(err: &impl Print, path: &[u8], e: Error, so: &[u8]) {
    let shown = InlineText::<128>::of(e);
    let whole = shown.as_str();
    let text = match whole.split_once(" (os error ") {
        Some((front, _)) => front,
        None => whole,
    };
    warn(err, path, b": ", text.as_bytes());
    warn(err, b"\nrehearse: ", so, b"\n");
}

// A path as text: only such a one can be handed to the machine.
fn text_of(path: &[u8]) -> io::Result<&str>
    ensures { IfOk result (λ p. p.now ≡ path.now) }
{
    match str::from_utf8(path) {
        Ok(p) => Ok(p),
        Err(_) => Err(Error::new(ErrorKind::InvalidFilename, "its name is not UTF-8")),
    }
}

// Opens a file for reading.
pub fn opened<R: Files>(rt: &R, path: &[u8]) -> io::Result<R::File> {
    fs::open(rt, text_of(path)?)
}

// Makes a file that is not there, for its owner alone, and opens it for writing.
fn created<R: Files>(rt: &R, name: &[u8]) -> io::Result<R::File> {
    OpenOptions::new()
        .write(true)
        .create_new(true)
        .mode(0o600)
        .open(rt, text_of(name)?)
}

// Opens a file that is there for writing over it.
fn reopened<R: Files>(rt: &R, path: &[u8]) -> io::Result<R::File> {
    OpenOptions::new()
        .read(true)
        .write(true)
        .open(rt, text_of(path)?)
}

fn removed(rt: &impl Files, name: &[u8]) -> io::Result<()> {
    fs::remove_file(rt, text_of(name)?)
}

fn moved(rt: &impl Files, name: &[u8], path: &[u8]) -> io::Result<()> {
    fs::rename(rt, text_of(name)?, text_of(path)?)
}

fn linked(rt: &impl Files, path: &[u8]) -> io::Result<bool> {
    let found = fs::symlink_metadata(rt, text_of(path)?)?;
    Ok(found.is_symlink())
}

// Whether a path is a symbolic link.
fn is_link(rt: &impl Files, path: &[u8]) -> bool {
    linked(rt, path).unwrap_or(false)
}

// What a symbolic link says, at the front of the room, as much as it takes, and its length.
fn read_link<R: Files + Alloc>(rt: &R, path: &[u8], room: &mut [u8]) -> io::Result<usize>
    ensures { IfOk result (λ n. IsPrefixLen n room.new) }
{
    let to = fs::read_link(rt, text_of(path)?)?;
    Ok(forms::lay(to.as_str().as_bytes(), room))
}

// A path that is no link, at the front of the room, and its length.
fn unlinked(rt: &impl Files, path: &[u8], room: &mut [u8]) -> Option<usize>
    ensures { IfSome result (λ n. IsPrefixLen n room.new) }
{
    if is_link(rt, path) {
        return None;
    }
    Some(forms::lay(path, room))
}

// The name of the open file that a path leads to, links followed, at the front of the room, and its length, where the machine tells it.
// A name that is no text can't be opened again, but a path that is no link is name enough.
fn name_of<R: Files + Alloc>(rt: &R, fd: i32, path: &[u8], room: &mut [u8]) -> Option<usize>
    ensures { IfSome result (λ n. IsPrefixLen n room.new) }
{
    if fd < 0 {
        return None;
    }
    let mut p = [0u8; 4096];
    let number = fd as u64;
    let n = forms::lay_form(b"/proc/self/fd/#", &[number], &[true], &mut p);
    match read_link(rt, &p[..n], room) {
        Ok(m) => Some(m),
        Err(e) => {
            if e.kind() == ErrorKind::InvalidFilename {
                return unlinked(rt, path, room);
            }
            None
        }
    }
}

// A file that can't be opened: its name where there is none yet, else why is said.
fn missing(
    rt: &impl Files,
    err: &impl Print,
    path: &[u8],
    e: Error,
    room: &mut [u8],
) -> Option<usize>
    ensures { IfSome result (λ n. IsPrefixLen n room.new) }
{
    if e.kind() != ErrorKind::NotFound {
        fail(err, path, e, b"nothing was rehearsed");
        return None;
    }
    if is_link(rt, path) {
        refuse(err, path, b"it is a link to a file that is not there");
        return None;
    }
    Some(forms::lay(path, room))
}

// The name of the file that a path leads to, links followed, at the front of the room; where there is none, why is said.
pub fn target<R: Files + Alloc>(
    rt: &R,
    err: &impl Print,
    path: &[u8],
    room: &mut [u8],
) -> Option<usize>
where
    R::File: AsRawFd,
    ensures { IfSome result (λ n. IsPrefixLen n room.new) }
{
    let file = match opened(rt, path) {
        Ok(file) => file,
        Err(e) => return missing(rt, err, path, e, room),
    };
    let n = name_of(rt, file.as_raw_fd(), path, room);
    drop(file);
    if n.unwrap_or(0) == 0 {
        refuse(err, path, b"/proc/self/fd does not tell its name");
        return None;
    }
    n
}

// Makes FILE.new, for its owner alone since it will hold keys, and answers it; nothing where it is there already: it is another run's,
// or was left behind by one.
pub fn hold<R: Files>(rt: &R, err: &impl Print, name: &[u8]) -> Option<R::File> {
    match created(rt, name) {
        Ok(file) => {
            let _ = file.set_permissions(Permissions::from_mode(0o600));
            Some(file)
        }
        Err(e) => {
            if e.kind() == ErrorKind::AlreadyExists {
                refuse(
                    err,
                    name,
                    b"it is there: another run has the tag, or one was stopped",
                );
                let _ = err.write_all(
                    b"rehearse: where no run has it: if it has 684 bytes, it is the tag that the stopped run left; copy it over the file without .new. Then remove it\n",
                );
            } else {
                fail(err, name, e, b"nothing was rehearsed");
            }
            None
        }
    }
}

// Nothing is kept: FILE.new goes.
pub fn release<R: Files>(rt: &R, file: R::File, name: &[u8]) {
    drop(file);
    let _ = removed(rt, name);
}

// The bytes have reached the device, or why not.
fn written(file: &mut (impl Write + OpenFile), s: &[u8]) -> io::Result<()> {
    file.write_all(s)?;
    file.sync_all()
}

// There was no file: FILE.new takes its name.
fn renamed(rt: &impl Files, err: &impl Print, path: &[u8], name: &[u8]) {
    if let Err(e) = moved(rt, name, path) {
        fail(err, path, e, b"the tag was not kept");
        let _ = removed(rt, name);
    }
}

// The file is written over, so that its mode and its links stay, while FILE.new holds the same bytes.
fn replaced(rt: &impl Files, err: &impl Print, path: &[u8], name: &[u8], s: &[u8]) {
    let mut file = match reopened(rt, path) {
        Ok(file) => file,
        Err(e) => {
            if e.kind() == ErrorKind::NotFound {
                return renamed(rt, err, path, name);
            }
            fail(err, path, e, b"the tag was not kept");
            let _ = removed(rt, name);
            return;
        }
    };
    match written(&mut file, s) {
        Ok(()) => {
            let _ = removed(rt, name);
        }
        Err(e) => fail(
            err,
            path,
            e,
            b"the tag is in the file with .new alone: copy it over the file, and remove it",
        ),
    }
}

// The tag's image goes to FILE.new, whole, and then to the file.
pub fn store<R: Files>(
    rt: &R,
    err: &impl Print,
    mut file: R::File,
    path: &[u8],
    name: &[u8],
    tag: Tag,
) {
    let mut s = [0u8; 684];
    // the room has the length of an image
    let _ = storing::to_image(tag, &mut s);
    match written(&mut file, &s) {
        Ok(()) => {
            drop(file);
            replaced(rt, err, path, name, &s);
        }
        Err(e) => {
            fail(err, name, e, b"the tag was not kept");
            release(rt, file, name);
        }
    }
}
