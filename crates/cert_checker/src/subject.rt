//! What a certificate is about.

use cost_model::Params;
use road_network::Network;
use trace_reader::Trace;

/// The traces whose matches a certificate is to prove, with their network and options.
#[derive(Clone, Copy)]
pub struct Subject<'a> {
    pub net: &'a Network,
    pub params: &'a Params,
    pub traces: &'a [Trace],
}
