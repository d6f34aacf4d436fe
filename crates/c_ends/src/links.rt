//! The links of ends, as C passes them, and the ends that are made of them. If several parts are out of range, the
//! first of them counts: the link's members in their order, a master's stations, the number of a slave, then the node
//! behind the end.

ghost use Rattle.std.specs.Prelude.{◌≡◌, ◌≢◌, ◌≤◌, ◌==◌, [], length, Err, IfErr, IfOk, MatchOption};
ghost use Rattle.std.specs.Option.{option_or};
ghost use Rattle.std.specs.List.{list_any};
ghost use Rattle.c_ends.specs.Links.{carried_by, check_of, duplex_fault, duplex_setup, first_duplex, first_master, first_slave, many_fault, master_fault, master_setup, number_fault, routes_fault, slave_fault, slave_setup, station_fault, twice_fault};

use crate::code::Code;
use crate::held::Held;
use crate::node::{node_fault, node_of};
use crate::parts::{DuplexLink, FileParts, MasterLink, NodeParts, SlaveLink, WordParts};
use crate::values::{reserved_fault, value_fault};
use df1_check::Check;
use duplex_end::{End, Setup};
use duplex_sender::Limits;
use end_settings::EndKey;
use half_master::{Master, MasterSetup};
use half_slave::{Slave, SlaveSetup};
use station_router::Router;
use std::alloc::Global;

/// The most stations of a master.
const MAX_STATIONS: usize = 32;

/// Returns a new full-duplex end of its link, the node behind it, its data files, the first values of their words, and
/// the block of a diagnostic status. An error is the code of the first part that is out of range; if all of them are in
/// range, it is `NoMemory`.
pub fn duplex_of(
    alloc: Global,
    link: &DuplexLink,
    node: &NodeParts,
    files: &[FileParts],
    words: &[WordParts],
    block: &[u8],
) -> Result<Held, Code>
    ensures ok { IfOk result (λ held. held ≡ first_duplex link.now node.now files.now words.now block.now) }
    ensures fault { MatchOption (duplex_fault link.now node.now files.now words.now block.now) (IfErr result (λ code. code ≡ Code.NoMemory)) (λ fault. result ≡ Err fault) }
{
    if let Some(fault) = duplex_fault(link, node, files, words, block) {
        return Err(fault);
    }
    match node_of(alloc, node, files, words, block) {
        Ok(node) => Ok(Held::Duplex(End::new(duplex_setup(link), node))),
        Err(_) => Err(Code::NoMemory),
    }
}

/// Returns a new master, made of its link, the numbers of its stations, and the parts of its node. An error is the
/// code of the first part that is out of range; if all of them are in range, it is `NoMemory`.
pub fn master_of(
    alloc: Global,
    link: &MasterLink,
    stations: &[u8],
    node: &NodeParts,
    files: &[FileParts],
    words: &[WordParts],
    block: &[u8],
) -> Result<Held, Code>
    ensures ok { IfOk result (λ held. held ≡ first_master link.now stations.now node.now files.now words.now block.now) }
    ensures fault { MatchOption (master_fault link.now stations.now node.now files.now words.now block.now) (IfErr result (λ code. code ≡ Code.NoMemory)) (λ fault. result ≡ Err fault) }
{
    if let Some(fault) = master_fault(link, stations, node, files, words, block) {
        return Err(fault);
    }
    match node_of(alloc, node, files, words, block) {
        Ok(node) => {
            let router = Router::new(carried_by(link, stations), node);
            Ok(Held::Master(Master::new(master_setup(link), stations, router)))
        }
        Err(_) => Err(Code::NoMemory),
    }
}

/// Returns a new slave, made of its link and the parts of its node. Its number is the address of its node. An error is
/// the code of the first part that is out of range; if all of them are in range, it is `NoMemory`.
pub fn slave_of(
    alloc: Global,
    link: &SlaveLink,
    node: &NodeParts,
    files: &[FileParts],
    words: &[WordParts],
    block: &[u8],
) -> Result<Held, Code>
    ensures ok { IfOk result (λ held. held ≡ first_slave link.now node.now files.now words.now block.now) }
    ensures fault { MatchOption (slave_fault link.now node.now files.now words.now block.now) (IfErr result (λ code. code ≡ Code.NoMemory)) (λ fault. result ≡ Err fault) }
{
    if let Some(fault) = slave_fault(link, node, files, words, block) {
        return Err(fault);
    }
    let setup = slave_setup(link, node);
    match node_of(alloc, node, files, words, block) {
        Ok(node) => Ok(Held::Slave(Slave::new(setup, node))),
        Err(_) => Err(Code::NoMemory),
    }
}

/// Returns what is out of range of a full-duplex end.
fn duplex_fault(
    link: &DuplexLink,
    node: &NodeParts,
    files: &[FileParts],
    words: &[WordParts],
    block: &[u8],
) -> Option<Code>
    ensures { result ≡ duplex_fault link.now node.now files.now words.now block.now }
{
    value_fault(EndKey::AckTicks, Code::BadAckTicks, link.ack_ticks)
        .or_else(|| value_fault(EndKey::MaxNaks, Code::BadMaxNaks, link.max_naks))
        .or_else(|| value_fault(EndKey::MaxEnqs, Code::BadMaxEnqs, link.max_enqs))
        .or_else(|| reserved_fault(&link.reserved))
        .or_else(|| node_fault(node, files, words, block))
}

/// Returns what is out of range of a master.
fn master_fault(
    link: &MasterLink,
    stations: &[u8],
    node: &NodeParts,
    files: &[FileParts],
    words: &[WordParts],
    block: &[u8],
) -> Option<Code>
    ensures { result ≡ master_fault link.now stations.now node.now files.now words.now block.now }
{
    value_fault(EndKey::AckTicks, Code::BadAckTicks, link.ack_ticks)
        .or_else(|| value_fault(EndKey::MaxResends, Code::BadMaxResends, link.max_resends))
        .or_else(|| value_fault(EndKey::PollTicks, Code::BadPollTicks, link.poll_ticks))
        .or_else(|| routes_fault(link.routes))
        .or_else(|| reserved_fault(&link.reserved))
        .or_else(|| many_fault(stations))
        .or_else(|| station_fault(stations))
        .or_else(|| node_fault(node, files, words, block))
}

/// Returns what is out of range of a slave.
fn slave_fault(
    link: &SlaveLink,
    node: &NodeParts,
    files: &[FileParts],
    words: &[WordParts],
    block: &[u8],
) -> Option<Code>
    ensures { result ≡ slave_fault link.now node.now files.now words.now block.now }
{
    value_fault(EndKey::MaxSends, Code::BadMaxSends, link.max_sends)
        .or_else(|| reserved_fault(&link.reserved))
        .or_else(|| number_fault(node.address))
        .or_else(|| node_fault(node, files, words, block))
}

/// Returns the check of a link: the CRC if it is wanted, and the BCC otherwise.
pub fn check_of(crc: bool) -> Check
    ensures { result ≡ check_of crc }
{
    if crc { Check::Crc } else { Check::Bcc }
}

/// Returns the setup of a full-duplex end.
fn duplex_setup(link: &DuplexLink) -> Setup
    ensures { result ≡ duplex_setup link.now }
{
    Setup {
        check: check_of(link.crc),
        embed: link.embed,
        limits: Limits {
            ack_ticks: link.ack_ticks,
            max_naks: link.max_naks,
            max_enqs: link.max_enqs,
        },
    }
}

/// Returns the setup of a master.
fn master_setup(link: &MasterLink) -> MasterSetup
    ensures { result ≡ master_setup link.now }
{
    MasterSetup {
        check: check_of(link.crc),
        ack_ticks: link.ack_ticks,
        max_resends: link.max_resends,
        poll_ticks: link.poll_ticks,
    }
}

/// Returns the stations between which a master carries messages.
fn carried_by<'a>(link: &MasterLink, stations: &'a [u8]) -> &'a [u8]
    ensures stations { result.now ≡ carried_by link.now stations.now }
    ensures few { length result.now ≤ length stations.now }
{
    if link.routes == 1 { stations } else { &[] }
}

/// Returns the setup of a slave.
fn slave_setup(link: &SlaveLink, node: &NodeParts) -> SlaveSetup
    ensures { result ≡ slave_setup link.now node.now }
{
    SlaveSetup {
        station: node.address,
        check: check_of(link.crc),
        max_sends: link.max_sends,
    }
}

/// Returns a code if a number says neither that a master carries messages nor that it doesn't.
fn routes_fault(routes: u32) -> Option<Code>
    ensures { result ≡ routes_fault routes }
{
    if routes > 1 {
        Some(Code::BadRoutes)
    } else {
        None
    }
}

/// Returns a code if the number is 16 or 255, which no station may have.
pub fn number_fault(number: u8) -> Option<Code>
    ensures fault { result ≡ number_fault number }
    ensures none { result ≡ None → (number ≢ 16) × (number ≢ 255) }
{
    if number == 16 || number == 255 {
        Some(Code::BadStation)
    } else {
        None
    }
}

/// Returns a code if a station is among those before it.
fn twice_fault(before: &[u8], number: u8) -> Option<Code>
    ensures { result ≡ twice_fault before.now number }
{
    if is_among(before, number) {
        Some(Code::StationTwice)
    } else {
        None
    }
}

/// Returns whether it is one of these numbers.
fn is_among(numbers: &[u8], number: u8) -> bool
    ensures { result ≡ list_any (λ other. number == other) numbers.now }
{
    numbers.iter().any(|other| number == *other)
}

/// Returns a code if there are more stations than a master may have.
fn many_fault(stations: &[u8]) -> Option<Code>
    ensures { result ≡ many_fault stations.now }
{
    if stations.len() > MAX_STATIONS {
        Some(Code::TooManyStations)
    } else {
        None
    }
}

/// Returns the code of the first station that is bad or listed twice.
fn station_fault(stations: &[u8]) -> Option<Code>
    ensures { result ≡ station_fault [] stations.now }
{
    for (place, number) in stations.iter().enumerate() {
        let fault = fault_after(&stations[..place], *number);
        if fault.is_some() {
            return fault;
        }
    }
    None
}

/// Returns what is wrong with a station that follows others.
fn fault_after(before: &[u8], number: u8) -> Option<Code>
    ensures { result ≡ option_or (number_fault number) (twice_fault before.now number) }
{
    number_fault(number).or_else(|| twice_fault(before, number))
}
