// Where a request goes.
ghost use Rattle.std.specs.Prelude.{◌≡◌};
ghost use Rattle.reg_routes.specs.Endpoint.{endpoint_of, endpoint_on, nowhere};

use crate::paths::Paths;
use crate::route::{Action, Route};
use crate::target::{is_path, path_of};

/// The path of the registry that a target names, and what the method asks of it.
#[derive(Clone, Copy, Debug, PartialEq, Eq)]
pub struct Endpoint {
    /// The path; `None` if the target names no path of the registry.
    pub route: Option<Route>,
    /// What the method asks; `None` if there is no path, or it doesn't offer the method.
    pub action: Option<Action>,
}

impl Endpoint {
    /// Returns the endpoint of a request whose target names no path of the registry.
    pub fn nowhere() -> Endpoint
        ensures { result ≡ nowhere }
    {
        Endpoint {
            route: None,
            action: None,
        }
    }
}

impl Paths {
    /// Returns the endpoint of a method and a target. Takes no memory. A target that doesn't begin
    /// with `/` names no path.
    pub fn endpoint(&self, method: &str, target: &str) -> Endpoint
        ensures { result ≡ endpoint_of method.now target.now }
    {
        if is_path(target) {
            endpoint_on(method, self.route_of(path_of(target)))
        } else {
            Endpoint::nowhere()
        }
    }
}

fn endpoint_on(method: &str, route: Option<Route>) -> Endpoint
    ensures { result ≡ endpoint_on method.now route }
{
    match route {
        Some(path) => Endpoint {
            route,
            action: path.action(method),
        },
        None => Endpoint::nowhere(),
    }
}
