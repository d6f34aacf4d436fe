//! The texts of status codes (manual topic: status codes).
//!
//! | STS | Text |
//! |---|---|
//! | 00 | that the command was executed |
//! | 01 to 0F | of the fault at the local node, by the low four bits |
//! | F0 | of EXT STS |
//! | any other | of the fault at the remote node, by the high four bits alone |
//!
//! A code that the manual doesn't list has the text "see the manual of the controller".
ghost use Rattle.std.specs.Prelude.{◌≡◌, ◌≤◌, length};
ghost use Rattle.reply_values.specs.Texts.{extended_text, local_text, remote_text, status_text};

/// STS: the code is in EXT STS.
const EXTENDED: u8 = 0xF0;

/// The text of a code that isn't listed.
const UNKNOWN: &str = "see the manual of the controller";

/// Returns the text of STS and EXT STS, at most 79 bytes. EXT STS is ignored if STS isn't F0.
pub fn status_text(sts: u8, ext: u8) -> &'static str
    ensures text { result.now ≡ status_text sts ext }
    ensures short { length result.now ≤ 79 }
{
    if sts == 0 {
        "the command was executed"
    } else if sts == EXTENDED {
        extended_text(ext)
    } else if sts < 0x10 {
        local_text(sts)
    } else {
        remote_text(sts / 16)
    }
}

/// Returns the text of a fault at the local node.
fn local_text(sts: u8) -> &'static str
    ensures text { result.now ≡ local_text sts }
    ensures short { length result.now ≤ 79 }
{
    match sts {
        0x01 => "the destination node is out of buffer space",
        0x02 => "delivery can't be guaranteed: the remote node doesn't acknowledge the command",
        0x03 => "a duplicate token holder was detected",
        0x04 => "the local port is disconnected",
        0x05 => "the application layer timed out waiting for a response",
        0x06 => "a duplicate node was detected",
        0x07 => "the station is offline",
        0x08 => "there is a hardware fault",
        _ => UNKNOWN,
    }
}

/// Returns the text of a fault at the remote node, by the high four bits of STS.
fn remote_text(high: u8) -> &'static str
    ensures text { result.now ≡ remote_text high }
    ensures short { length result.now ≤ 79 }
{
    match high {
        0x1 => "the command or its format is unknown there",
        0x2 => "the host has a problem and will not communicate",
        0x3 => "the remote host is missing, disconnected or shut down",
        0x4 => "the host couldn't complete the function because of a hardware fault",
        0x5 => "the address is wrong, or the memory is protected",
        0x6 => "command protection is set so that the function isn't allowed",
        0x7 => "the controller is in program mode",
        0x8 => "there is no compatibility file, or the communication zone has a problem",
        0x9 => "the remote node can't buffer the command",
        0xA => "wait for an ACK: a buffer is full",
        0xB => "the remote node has a problem because of a download",
        0xC => "wait for an ACK: a buffer is full",
        _ => UNKNOWN,
    }
}

/// Returns the text of EXT STS.
fn extended_text(ext: u8) -> &'static str
    ensures text { result.now ≡ extended_text ext }
    ensures short { length result.now ≤ 79 }
{
    match ext {
        0x01 => "a field has a value that isn't allowed",
        0x02 => "the address has too few levels",
        0x03 => "the address has too many levels",
        0x04 => "the symbol isn't found",
        0x05 => "the symbol has an improper format",
        0x06 => "there is no such file, element or sub-element",
        0x07 => "the file has the wrong size",
        0x08 => "the request can't be completed: the situation has changed since it began",
        0x09 => "data or file is too large",
        0x0A => "the address or the range is past the end of the file",
        0x0B => "the access is denied",
        0x0C => "the condition can't be generated: the resource isn't available",
        0x0D => "the condition exists already: the resource is available",
        0x0E => "the command can't be executed",
        0x0F => "the histogram overflowed",
        0x10 => "there is no access",
        0x11 => "the data type isn't allowed",
        0x12 => "a parameter or the data is invalid",
        0x13 => "the address refers to a deleted area",
        0x14 => "the command failed for an unknown reason, perhaps a PLC-3 histogram overflow",
        0x15 => "the data can't be converted",
        0x16 => "the scanner can't communicate with the rack adapter",
        0x17 => "the type doesn't match",
        0x18 => "the response of the module wasn't valid",
        0x19 => "a label is there twice",
        0x1A => "the file is open: another node owns it",
        0x1B => "another node owns the program",
        0x1E => "the element of the data table is protected",
        0x1F => "there is a temporary internal problem",
        0x22 => "the remote rack has a fault",
        0x23 => "it timed out",
        0x24 => "the error is unknown",
        _ => UNKNOWN,
    }
}
