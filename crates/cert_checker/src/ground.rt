//! What the traces of a certificate are checked against. Serves `check_all`.
ghost use Rattle.std.specs.Prelude.{◌≡◌, None};
ghost use Rattle.cost_model.specs.Options.{IsAccepted};
ghost use Rattle.cert_checker.specs.Rows.{first_bad_row};

use crate::placed_rows::PlacedRows;
use candidate_search::EdgeScan;
use cost_model::Params;
use road_network::Network;

/// The network with a scan of its edges, accepted options and right rows.
#[derive(Clone, Copy)]
pub struct Ground<'a> {
    pub net: &'a Network,
    pub scan: &'a EdgeScan<'a>,
    pub params: &'a Params,
    pub rows: &'a PlacedRows<'a>,
    pub ghost same: { scan.now ≡ net.now },
    pub ghost accepted: { IsAccepted params.now },
    pub ghost right: { first_bad_row net.now params.now.bound rows.now ≡ None },
}
