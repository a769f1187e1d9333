//! A law of the values of this crate. The function here does nothing.
ghost use Rattle.net_base.specs.Values.{ClonesAreSame, ComparesValues};

use crate::endpoint::Endpoint;

/// States that two endpoints are equal exactly if they are the same, and that a clone of one is the same, and is
/// never refused.
pub fn values()
    ensures endpoints { ComparesValues ⟦<Endpoint as PartialEq>⟧.eq }
    ensures endpoint_clones { ClonesAreSame ⟦<Endpoint as Clone>⟧.is_clone
        ⟦<Endpoint as Clone>⟧.is_infallible }
{}
