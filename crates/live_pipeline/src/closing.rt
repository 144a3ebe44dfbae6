//! The end of a relay. Serves `live_traces`; decided by the rule of the relay.
ghost use Rattle.std.specs.Prelude.{◌≡◌, ◌⊎◌, []};
ghost use Rattle.live_pipeline.specs.Pieces.{AreWholeParts};

use crate::relay::{PutPass, Relay, TakePass};

/// Closes a relay from which a last part was taken. Then what was taken is what was put, in order and
/// each part once.
pub fn close_whole(relay: Relay, put: PutPass, take: TakePass)
    requires relay { (put.relay ≡ relay.name) × (take.relay ≡ relay.name) }
    requires put { (put.parts ≡ []) ⊎ AreWholeParts put.parts }
    requires taken { AreWholeParts take.parts }
    ensures { take.parts ≡ put.parts }
{
    relay.close(put, take);
}
