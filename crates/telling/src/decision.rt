// What is printed of the access decision.
ghost use Rattle.forms.specs.Rooms.{Writes};
ghost use Rattle.telling.specs.Decision.{access_text};

use crate::Why;
use forms::Page;

// How a command was granted and under which right, in words; nothing where it never got to the decision.
pub fn access_line(why: Why, page: &mut Page<'_>)
    ensures { Writes (access_text why) page.old page.new }
{
    let Why { how, right, key } = why;
    if how == 0 {
        return;
    }
    page.append_form(
        b"  access: {by key #}{a tap}{free}{needs no right}{refused}{, under Read}{, under Write}{, under ReadWrite}\
{, under Change}{, under SDMMetaRead}{, under SDMFileRead}{, under SDMCtrRet}\n",
        &[u64::from(key)],
        &[
            how == 1,
            how == 2,
            how == 3,
            how == 4,
            how == 5,
            right == 1,
            right == 2,
            right == 3,
            right == 4,
            right == 5,
            right == 6,
            right == 7,
        ],
    );
}
