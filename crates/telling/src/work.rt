// What is printed of the cipher work of a call.
ghost use Rattle.forms.specs.Rooms.{Writes};
ghost use Rattle.telling.specs.Work.{blocks_text};

use forms::Page;

// How many AES blocks were computed.
pub fn blocks_line(blocks: u64, page: &mut Page<'_>)
    ensures { Writes (blocks_text blocks) page.old page.new }
{
    page.append_form(b"  blocks: #\n", &[blocks], &[true]);
}
