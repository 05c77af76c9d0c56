// The paths of the registry, as a router has them.
ghost use Rattle.std.specs.Prelude.{◌≡◌, [], true, IfOk, OnOk, fold, map};
ghost use Rattle.reg_routes.specs.Adding.{all_can_be_added, can_be_added};
ghost use Rattle.reg_routes.specs.Router.{path_rows, route_of, with_path};

use crate::route::Route;
use matchit::{InsertError, Router};
use std::alloc::{AllocError, Global};

/// Each path with its route, in the order in which the router gets them.
const PATHS: [(&str, Route); 13] = [
    ("/schemas/ids/{id}", Route::SchemaById),
    ("/schemas/ids/{id}/versions", Route::IdVersions),
    ("/subjects", Route::Subjects),
    ("/subjects/{subject}", Route::Subject),
    ("/subjects/{subject}/versions", Route::Versions),
    ("/subjects/{subject}/versions/{version}", Route::Version),
    (
        "/subjects/{subject}/versions/{version}/schema",
        Route::VersionSchema,
    ),
    (
        "/compatibility/subjects/{subject}/versions",
        Route::CheckAll,
    ),
    (
        "/compatibility/subjects/{subject}/versions/{version}",
        Route::CheckOne,
    ),
    ("/config", Route::Level),
    ("/config/{subject}", Route::SubjectLevel),
    ("/mode", Route::Mode),
    ("/mode/{subject}", Route::SubjectMode),
];

/// A router of all the paths of the registry.
#[derive(Drop)]
pub struct Paths {
    router: Router<Route>,
    ghost known: { ∥ router ≡ path_rows ∥₁ },
}

impl Paths {
    /// Makes the router. The only error is out of memory.
    pub fn new(alloc: Global) -> Result<Paths, AllocError> {
        match router_of_paths(alloc) {
            Ok(router) => Ok(Paths { router }),
            Err(e) => Err(e),
        }
    }

    /// Returns the route that matches a path; `None` if none does. The path is matched as it was
    /// sent, with its escapes. Takes no memory.
    #[tactic(auto, unfolding(crate::specs::Router::route_of))]
    pub fn route_of(&self, path: &str) -> Option<Route>
        ensures { result ≡ route_of path.now }
    {
        match self.router.at(path) {
            Ok(found) => Some(*found.value),
            Err(_) => None,
        }
    }
}

/// Makes a router of all the paths. The only error is out of memory.
#[tactic(auto, unfolding(crate::specs::Router::path_rows))]
fn router_of_paths(alloc: Global) -> Result<Router<Route>, AllocError>
    ensures { IfOk result (λ router. router ≡ path_rows) }
{
    router_of(alloc, &PATHS)
}

/// Makes a router of these paths, added in turn. The only error is out of memory.
fn router_of(alloc: Global, paths: &[(&str, Route)]) -> Result<Router<Route>, AllocError>
    requires { all_can_be_added [] (map (λ path. (path.0.now, path.1)) paths.now) ≡ true }
    ensures { IfOk result (λ router. router ≡ fold with_path [] (map (λ path. (path.0.now, path.1)) paths.now)) }
{
    let mut router = Router::new(alloc);
    for (path, route) in paths {
        add(&mut router, path, *route)?;
    }
    Ok(router)
}

/// Adds a path with its route. The only error is out of memory.
fn add(router: &mut Router<Route>, path: &str, route: Route) -> Result<(), AllocError>
    requires { can_be_added router.old (path.now, route) ≡ true }
    ensures { OnOk result (router.new ≡ with_path router.old (path.now, route)) }
{
    match router.insert(path, route) {
        Ok(()) => Ok(()),
        Err(InsertError::OutOfMemory) => Err(AllocError),
        Err(_) => unreachable!(),
    }
}
