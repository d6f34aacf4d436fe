//! The status and the data of a reply.
ghost use Rattle.std.specs.Prelude.{◌≡◌};
ghost use Rattle.std.specs.Option.{option_map};
ghost use Rattle.reply_values.specs.Reply.{of_status, reply_of, seen};

/// STS: the code is in EXT STS, the byte after TNS.
const EXTENDED: u8 = 0xF0;

/// The contents of a reply (manual topics: message packets, status codes).
#[derive(Clone, Copy, Debug)]
pub struct Reply<'a> {
    /// STS: 0 if the command was executed.
    pub sts: u8,
    /// EXT STS, which a reply has if STS is F0; otherwise 0.
    pub ext: u8,
    /// The data.
    pub bytes: &'a [u8],
}

/// Reads the body of a reply: `DST SRC CMD STS TNSlow TNShigh`, EXT STS if STS is F0, and the data. Returns None
/// exactly if one of these bytes other than the data is missing.
pub fn read_reply(body: &[u8]) -> Option<Reply<'_>>
    ensures { option_map seen result ≡ reply_of body.now }
{
    match body {
        [_, _, _, sts, _, _, rest @ ..] => status_and_data(*sts, rest),
        _ => None,
    }
}

/// Returns the contents of a reply with this STS, from the bytes after its TNS.
fn status_and_data(sts: u8, rest: &[u8]) -> Option<Reply<'_>>
    ensures { option_map seen result ≡ of_status sts rest.now }
{
    if sts != EXTENDED {
        return Some(Reply {
            sts,
            ext: 0,
            bytes: rest,
        });
    }
    match rest {
        [ext, bytes @ ..] => Some(Reply {
            sts,
            ext: *ext,
            bytes,
        }),
        [] => None,
    }
}
