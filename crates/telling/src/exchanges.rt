// What is printed of a command, its reply, and what was expected of it.
ghost use Rattle.forms.specs.Rooms.{Writes};
ghost use Rattle.telling.specs.Exchanges.{refused_of, status_line, reply_text, exchange_of, unlike_of};

use crate::names::status_name;
use crate::plain::{spaced, text_line};
use forms::Page;

// Says plainly that a ChangeFileSettings was refused.
fn settings_refused(command: &[u8], status: u16, page: &mut Page<'_>)
    ensures { Writes (refused_of command.now status) page.old page.new }
{
    if base::at(command, 0) == 0x90 && base::at(command, 1) == 0x5F && status != 0x9100 {
        page.append(b"  ChangeFileSettings was refused: the settings are as they were.\n");
    }
}

// A reply's bytes, and what its status means.
fn status_line(r: &[u8], status: u16, page: &mut Page<'_>)
    ensures { Writes (status_line r.now status) page.old page.new }
{
    page.append(b"<");
    spaced(r, page);
    page.append(b" : ");
    status_name(status, page);
    page.append(b"\n");
}

// A reply: data and two status bytes.
fn reply(command: &[u8], r: &[u8], page: &mut Page<'_>)
    ensures { Writes (reply_text command.now r.now) page.old page.new }
{
    if r.len() < 2 {
        page.append(b"< no reply\n");
        return;
    }
    let status = verdict::status_of(r);
    status_line(r, status, page);
    text_line(&r[..r.len() - 2], page);
    settings_refused(command, status, page);
}

// A command with its line's number, and its reply.
pub fn exchange(number: u64, command: &[u8], r: &[u8], page: &mut Page<'_>)
    ensures { Writes (exchange_of number command.now r.now) page.old page.new }
{
    page.append_form(b"line # >", &[number], &[true]);
    spaced(command, page);
    page.append(b"\n");
    reply(command, r, page);
}

// What was expected of a reply that differs.
pub fn unlike(expected: &[u8], page: &mut Page<'_>)
    ensures { Writes (unlike_of expected.now) page.old page.new }
{
    page.append(b"  NOT AS EXPECTED:");
    spaced(expected, page);
    page.append(b"\n");
}
