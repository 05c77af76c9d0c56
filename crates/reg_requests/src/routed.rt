// What a request asks of the registry.
use crate::asked::Asked;
use crate::asking::route_request;
use reg_messages::Request;
use reg_routes::Paths;
use std::alloc::{AllocError, Global};

/// A request that can be routed.
pub trait Routed {
    /// Returns what is asked, or the refusal of the first test that fails. The only error is out of
    /// memory.
    fn route(&self, alloc: Global) -> Result<Asked, AllocError>;
}

impl Routed for Request {
    ghost use Rattle.std.specs.Prelude.{◌≡◌, IfOk};
    ghost use Rattle.reg_requests.specs.Asked.{asked_of};

    fn route(&self, alloc: Global) -> Result<Asked, AllocError>
        ensures { IfOk result (λ asked. asked ≡ asked_of self.now) }
    {
        let paths = Paths::new(alloc)?;
        route_request(alloc, &paths, self)
    }
}
