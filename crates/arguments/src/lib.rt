// What a program's arguments ask for, and the name of the new file beside one.
#![tactic(auto)]

ghost use Rattle.std.specs.Prelude.{◌≡◌};
ghost use Rattle.arguments.specs.Arguments.{Asks, beside_length, beside_room};

// What the arguments ask for: nothing, or a kept tag.
#[derive(Clone, Copy, Debug, PartialEq, Eq)]
pub enum Asked {
    Plain,
    Image,
}

// Why they ask for neither. An unknown one is known by its number.
#[derive(Clone, Copy, Debug, PartialEq, Eq)]
pub enum BadArguments {
    NoFile,
    Unknown(usize),
}

// By the number of arguments, the program's name among them, and whether the first is --image.
#[tactic(auto, unfolding(crate::specs::Arguments::asked_by, crate::specs::Arguments::asked_case, crate::specs::Arguments::asked_number))]
pub fn asks(count: usize, named: bool) -> Result<Asked, BadArguments>
    ensures { Asks count named result }
{
    if count <= 1 {
        return Ok(Asked::Plain);
    }
    if !named {
        return Err(BadArguments::Unknown(1));
    }
    match count {
        2 => Err(BadArguments::NoFile),
        3 => Ok(Asked::Image),
        _ => Err(BadArguments::Unknown(3)),
    }
}

// FILE.new at the front of the room, and how long that name is. Where it does not fit, the room stays as it is.
pub fn beside(path: &[u8], room: &mut [u8]) -> Option<usize>
    ensures count { result ≡ beside_length path.now room.old }
    ensures left { room.new ≡ beside_room path.now room.old }
{
    let n = path.len();
    if room.len() < 4 || room.len() - 4 < n {
        return None;
    }
    base::put(path, room, 0);
    base::put(b".new", room, n);
    Some(n + 4)
}
