//! The network, accepted or refused. Serves the commands; decided by `network_said`.
ghost use Rattle.program_frame.specs.Loads.{Loads};
ghost use Rattle.program_frame.specs.inside.Refusing.{Accepts};
ghost use Rattle.program_frame.specs.Refusals.{network_said};
ghost use Rattle.road_network.specs.Limits.{file_limit};

use crate::fault_line::refuse_fault;
use crate::files::read_file;
use crate::stop::{File, Refusal, Stop};
use edge_io::Shelf;
use road_network::{Network, NetworkLimits, read_network_text};
use std::alloc::Global;

// The network of a text, or its refusal.
fn accept_network(alloc: Global, limits: NetworkLimits, text: Vec<u8>) -> Result<Network, Stop>
    ensures { Accepts Refusal.Network (network_said limits text.items) result }
{
    match read_network_text(alloc, limits, text) {
        Ok(network) => Ok(network),
        Err(fault) => Err(refuse_fault(alloc, Refusal::Network, &fault)),
    }
}

/// Reads a network within these limits, and accepts or refuses it. The memory of the file's text is
/// returned while its records are read.
pub fn load_network<S: Shelf>(
    alloc: Global,
    shelf: &mut S,
    name: &str,
    limits: NetworkLimits,
) -> Result<Network, Stop>
    ensures { Loads Refusal.Network File.Network name.now (file_limit limits)
        (network_said limits) (S.state shelf.old) (S.state shelf.new) result }
{
    let limit = limits.file_bytes();
    let bytes = read_file(alloc, shelf, File::Network, name, limit)?;
    accept_network(alloc, limits, bytes)
}
