//! The node behind an end, as C passes it.

ghost use Rattle.std.specs.Prelude.{◌≡◌, None, Some, IfOk};
ghost use Rattle.data_files.specs.Tables.{fits_compat};
ghost use Rattle.end_settings.specs.declared.key.EndKey.TheVariants.{PerSource, Window};
ghost use Rattle.c_ends.specs.Values.{given_or_first};
ghost use Rattle.c_ends.specs.Parts.{block_fault, compat_fault, compat_of, files_fault, first_node, node_fault, specs_of};

use crate::code::Code;
use crate::files::{count_fault, each_fault, file_in, tables_of, type_fault, word_fault};
use crate::parts::{FileParts, NodeParts, WordParts};
use crate::values::{given_or_first, reserved_fault, value_fault};
use df1_base::{MAX_DATA, NoMemory};
use df1_node::{Node, NodeSetup, Station};
use end_settings::EndKey;
use std::alloc::Global;

/// Returns what is out of range of the node behind an end.
pub(crate) fn node_fault(
    node: &NodeParts,
    files: &[FileParts],
    words: &[WordParts],
    block: &[u8],
) -> Option<Code>
    ensures { result ≡ node_fault node.now files.now words.now block.now }
{
    value_fault(EndKey::ReplyTicks, Code::BadReplyTicks, node.reply_ticks)
        .or_else(|| value_fault(EndKey::Room, Code::BadRoom, node.room))
        .or_else(|| value_fault(EndKey::Window, Code::BadWindow, window_of(node)))
        .or_else(|| value_fault(EndKey::PerSource, Code::BadPerSource, per_source_of(node)))
        .or_else(|| reserved_fault(&node.reserved))
        .or_else(|| files_fault(node, files, words, block))
}

/// Returns what is out of range of the files, of the compatibility file, of the first words and of the block.
fn files_fault(
    node: &NodeParts,
    files: &[FileParts],
    words: &[WordParts],
    block: &[u8],
) -> Option<Code>
    ensures { result ≡ files_fault node.now files.now words.now block.now }
{
    count_fault(files)
        .or_else(|| type_fault(files))
        .or_else(|| each_fault(files))
        .or_else(|| compat_fault(node, files))
        .or_else(|| word_fault(files, words))
        .or_else(|| block_fault(block))
}

/// Returns how many commands may be outstanding.
fn window_of(node: &NodeParts) -> u32
    ensures { result ≡ given_or_first Window node.now.window }
{
    given_or_first(EndKey::Window, node.window)
}

/// Returns how many commands of one source may be outstanding.
fn per_source_of(node: &NodeParts) -> u32
    ensures { result ≡ given_or_first PerSource node.now.per_source }
{
    given_or_first(EndKey::PerSource, node.per_source)
}

/// Returns a code if the compatibility file is no Bit or Integer file.
fn compat_fault(node: &NodeParts, files: &[FileParts]) -> Option<Code>
    ensures { result ≡ compat_fault node.now files.now }
{
    match compat_of(node) {
        Some(number) if !holds_words(files, number) => Some(Code::BadCompat),
        Some(_) | None => None,
    }
}

/// Returns whether there is such a file, and it holds bits or integers.
fn holds_words(files: &[FileParts], number: u16) -> bool
    ensures { result ≡ fits_compat (specs_of files.now) (Some number) }
{
    match file_in(files, number) {
        Some(spec) => spec.holds_words(),
        None => false,
    }
}

/// Returns the number of the compatibility file.
fn compat_of(node: &NodeParts) -> Option<u16>
    ensures { result ≡ compat_of node.now }
{
    if node.has_compat {
        Some(node.compat)
    } else {
        None
    }
}

/// Returns a code if a block is too long.
fn block_fault(block: &[u8]) -> Option<Code>
    ensures { result ≡ block_fault block.now }
{
    if block.len() > MAX_DATA {
        Some(Code::LongBlock)
    } else {
        None
    }
}

/// Returns the node of an end, with no command issued. An error is a lack of memory.
pub(crate) fn node_of(
    alloc: Global,
    node: &NodeParts,
    files: &[FileParts],
    words: &[WordParts],
    block: &[u8],
) -> Result<Node, NoMemory>
    requires { node_fault node.now files.now words.now block.now ≡ None }
    ensures { IfOk result (λ made. made ≡ first_node node.now files.now words.now block.now) }
{
    let tables = tables_of(alloc, files, words)?;
    let station = Station::new(tables, compat_of(node), block);
    let setup = NodeSetup {
        node: node.address,
        tns: node.tns,
        reply_ticks: node.reply_ticks,
        room: node.room as usize,
        window: window_of(node) as usize,
        per_source: per_source_of(node) as usize,
    };
    Node::new(alloc, setup, station)
}
