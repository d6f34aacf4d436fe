//! Creation of ends.

ghost use Rattle.std.specs.Prelude.{◌≡◌, []};
ghost use Rattle.std.specs.Option.{option_or};
ghost use Rattle.c_ends.specs.Code.{code_number};
ghost use Rattle.c_ends.specs.Links.{check_of, duplex_fault, first_duplex, first_master, first_slave, master_fault, slave_fault};
ghost use Rattle.df1_c.specs.Arrived.{IsEndFor};
ghost use Rattle.df1_c.specs.Held.{IsMake, holding, taken_fault};

use crate::seat::Seat;
use c_ends::{
    Code, DuplexLink, FileParts, MasterLink, NodeParts, SlaveLink, WordParts, duplex_of, master_of,
    slave_of,
};
use std::alloc::Global;

/// Fills an empty handle with a full-duplex end.
#[unsafe(no_mangle)]
pub extern "C" fn df1_duplex_make(
    alloc: Global,
    link: &DuplexLink,
    node: &NodeParts,
    files: &[FileParts],
    words: &[WordParts],
    block: &[u8],
    end: &mut Seat,
) -> u32
    ensures made { IsMake (option_or (taken_fault (holding end.old)) (duplex_fault link.now node.now files.now words.now block.now)) (first_duplex link.now node.now files.now words.now block.now) result (holding end.old) (holding end.new) }
    ensures stands { result ≡ code_number Code.Done → IsEndFor (check_of link.now.crc) [] (holding end.new) }
{
    if !end.is_empty() {
        return Code::NoHandle.number();
    }
    let made = duplex_of(alloc, link, node, files, words, block);
    end.fill(alloc, made).number()
}

/// Fills an empty handle with the master of a half-duplex link.
#[unsafe(no_mangle)]
pub extern "C" fn df1_master_make(
    alloc: Global,
    link: &MasterLink,
    stations: &[u8],
    node: &NodeParts,
    files: &[FileParts],
    words: &[WordParts],
    block: &[u8],
    end: &mut Seat,
) -> u32
    ensures made { IsMake (option_or (taken_fault (holding end.old)) (master_fault link.now stations.now node.now files.now words.now block.now)) (first_master link.now stations.now node.now files.now words.now block.now) result (holding end.old) (holding end.new) }
    ensures stands { result ≡ code_number Code.Done → IsEndFor (check_of link.now.crc) [] (holding end.new) }
{
    if !end.is_empty() {
        return Code::NoHandle.number();
    }
    let made = master_of(alloc, link, stations, node, files, words, block);
    end.fill(alloc, made).number()
}

/// Fills an empty handle with a slave of a half-duplex link.
#[unsafe(no_mangle)]
pub extern "C" fn df1_slave_make(
    alloc: Global,
    link: &SlaveLink,
    node: &NodeParts,
    files: &[FileParts],
    words: &[WordParts],
    block: &[u8],
    end: &mut Seat,
) -> u32
    ensures made { IsMake (option_or (taken_fault (holding end.old)) (slave_fault link.now node.now files.now words.now block.now)) (first_slave link.now node.now files.now words.now block.now) result (holding end.old) (holding end.new) }
    ensures stands { result ≡ code_number Code.Done → IsEndFor (check_of link.now.crc) [] (holding end.new) }
{
    if !end.is_empty() {
        return Code::NoHandle.number();
    }
    let made = slave_of(alloc, link, node, files, words, block);
    end.fill(alloc, made).number()
}
