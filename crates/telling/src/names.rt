// What a status means: Tables 23 and 24 of the data sheet.
ghost use Rattle.std.specs.Prelude.{◌≡◌, take};
ghost use Rattle.base.specs.Bytes.{same};
ghost use Rattle.forms.specs.Rooms.{Writes};
ghost use Rattle.telling.specs.Names.{row_of, table23, table24, not_in23, not_in24, name_of};

use forms::Page;

// Whether a line begins with a key of four characters.
fn has_key(line: &[u8], key: &[u8]) -> bool
    ensures { result ≡ same (take 4 line.now) key.now }
{
    base::alike(line.get(..4).unwrap_or(line), key)
}

// The text of the first line that has the key, or else another.
fn look_up(table: &[u8], key: &[u8], other: &[u8], page: &mut Page<'_>)
    ensures { Writes (row_of 0 table.now key.now other.now) page.old page.new }
{
    let mut at = 0;
    while at < table.len() {
        let end = lines::find(table, at, b'\n');
        if has_key(&table[at..end], key) {
            page.append_from(&table[at..end], 4);
            return;
        }
        at = end + 1;
    }
    page.append(other);
}

// CLA 90 (Table 23).
fn wrapped(key: &[u8], page: &mut Page<'_>)
    ensures { Writes (row_of 0 table23 key.now not_in23) page.old page.new }
{
    look_up(
        b"9100OPERATION_OK: Successful operation.\n\
911CILLEGAL_COMMAND_CODE: Command code not supported.\n\
911EINTEGRITY_ERROR: CRC or MAC does not match data. Padding bytes not valid.\n\
9140NO_SUCH_KEY: Invalid key number specified.\n\
917ELENGTH_ERROR: Length of command string invalid.\n\
919DPERMISSION_DENIED: Current configuration / status does not allow the requested command.\n\
919EPARAMETER_ERROR: Value of the parameter(s) invalid.\n\
91ADAUTHENTICATION_DELAY: Currently not allowed to authenticate.\n\
91AEAUTHENTICATION_ERROR: Current authentication status does not allow the requested command.\n\
91AFADDITIONAL_FRAME: Additional data frame is expected to be sent.\n\
91BEBOUNDARY_ERROR: Attempt to exceed the limits of a file.\n\
91CACOMMAND_ABORTED: Previous command was not fully completed.\n\
91F0FILE_NOT_FOUND: Specified file number does not exist.\n",
        key,
        b"not in Table 23.",
        page,
    );
}

// CLA 00 (Table 24), but for 6C and a number.
fn inter_industry(key: &[u8], page: &mut Page<'_>)
    ensures { Writes (row_of 0 table24 key.now not_in24) page.old page.new }
{
    look_up(
        b"6700Wrong length; no further indication.\n\
6982Security status not satisfied.\n\
6985Conditions of use not satisfied.\n\
6A80Incorrect parameters in the command data field.\n\
6A82File or application not found.\n\
6A86Incorrect parameters P1-P2.\n\
6A87Lc inconsistent with parameters P1-P2.\n\
6C00Wrong Le field.\n\
6D00Instruction code not supported or invalid.\n\
6E00Class not supported.\n\
9000Normal processing.\n",
        key,
        b"not in Table 24.",
        page,
    );
}

pub fn status_name(status: u16, page: &mut Page<'_>)
    ensures { Writes (name_of status) page.old page.new }
{
    let mut key = [0u8; 4];
    lines::encode(&status.to_be_bytes(), &mut key);
    match status {
        0x9100..=0x91FF => wrapped(&key, page),
        0x6C01..=0x6CFF => page.append(
            b"Wrong Le field; SW2 is the exact number of available data bytes.",
        ),
        _ => inter_industry(&key, page),
    }
}
