// The tests of a request, in their order.
ghost use Rattle.std.specs.Prelude.{◌≡◌, IfOk, option_map, if◌then◌else◌};
ghost use Rattle.serde_json.specs.View.{view};
ghost use Rattle.reg_leader.specs.reg_refusals.declared.refusal.Refusal.TheVariants as refusals;
ghost use Rattle.reg_routes.specs.Endpoint.{endpoint_of};
ghost use Rattle.reg_routes.specs.Routes.{action_of};
ghost use Rattle.reg_routes.specs.Target.{is_path};
ghost use Rattle.reg_requests.specs.Asked.{asked_of, asked_of_target, asked_of_route, asked_of_action, asked_of_parts, asked_of_texts, asked_of_body, asked_of_object, closing, named_version, names_version, object_in, open_refusal, takes_body};

use crate::action::{Given, action_asks, version_of};
use crate::asked::Asked;
use crate::body;
use reg_leader::reg_fold::VersionRef;
use reg_leader::reg_refusals::Refusal;
use reg_messages::{LendsParts, Request, RequestParts, told_length};
use reg_routes::{Action, Endpoint, PathPart, Paths, Route, is_path, path_of, query_of, text_part};
use serde_json::Value;
use std::alloc::{AllocError, Global};

/// Returns what a request asks, or the refusal of the first test that it fails. `paths` is the
/// router, made before. The only error is out of memory.
#[tactic(auto, unfolding(crate::specs::Asked::asked_of))]
pub fn route_request(alloc: Global, paths: &Paths, request: &Request) -> Result<Asked, AllocError>
    ensures { IfOk result (λ asked. asked ≡ asked_of request.now) }
{
    match told_length(request.fields.as_slice()) {
        Ok(told) => {
            let parts = request.parts();
            let endpoint = paths.endpoint(parts.method(), parts.target());
            route_told(alloc, endpoint, &parts, told)
        }
        Err(refusal) => Ok(closing(refusal)),
    }
}

/// Returns what a request asks, if its endpoint and the length that its fields state are known.
/// Otherwise as [`route_request`].
pub fn route_told(
    alloc: Global,
    endpoint: Endpoint,
    request: &RequestParts<'_>,
    told: Option<u64>,
) -> Result<Asked, AllocError>
    requires { endpoint ≡ endpoint_of request.now.method request.now.target }
    ensures { IfOk result (λ asked. asked ≡ asked_of_target request.now told) }
{
    match endpoint.route {
        Some(route) => asked_of_route(alloc, request, told, route, endpoint.action),
        None => Ok(no_path(request.target())),
    }
}

/// Refuses a target that names no path of the registry.
fn no_path(target: &str) -> Asked
    ensures { result ≡ (if is_path target.now then closing refusals.NotFound else closing refusals.BadRequest) }
{
    if is_path(target) {
        closing(Refusal::NotFound)
    } else {
        closing(Refusal::BadRequest)
    }
}

/// Makes a refusal after which the server closes the connection.
fn closing(refusal: Refusal) -> Asked
    ensures { result ≡ closing refusal }
{
    Asked::Refused {
        refusal,
        closes: true,
    }
}

/// Makes a refusal after which the connection stays open.
fn open_refusal(refusal: Refusal) -> Asked
    ensures { result ≡ open_refusal refusal }
{
    Asked::Refused {
        refusal,
        closes: false,
    }
}

/// Tests that the path offers the method, and goes on.
fn asked_of_route(
    alloc: Global,
    request: &RequestParts<'_>,
    told: Option<u64>,
    route: Route,
    action: Option<Action>,
) -> Result<Asked, AllocError>
    requires { action ≡ action_of route request.now.method }
    ensures { IfOk result (λ asked. asked ≡ asked_of_route request.now told route) }
{
    match action {
        Some(action) => asked_of_action(alloc, request, told, route, action),
        None => Ok(closing(Refusal::MethodNotAllowed(route.allow()))),
    }
}

/// Tests that a length is stated and the type is accepted if the method takes a body, and goes on.
fn asked_of_action(
    alloc: Global,
    request: &RequestParts<'_>,
    told: Option<u64>,
    route: Route,
    action: Action,
) -> Result<Asked, AllocError>
    ensures { IfOk result (λ asked. asked ≡ asked_of_action request.now told route action) }
{
    if takes_body(request.method()) && told.is_none() {
        return Ok(closing(Refusal::LengthRequired));
    }
    if takes_body(request.method()) && !request.is_accepted() {
        return Ok(closing(Refusal::UnsupportedMediaType));
    }
    asked_of_parts(alloc, request, route, action)
}

fn takes_body(method: &str) -> bool
    ensures { result ≡ takes_body method.now }
{
    method == "POST" || method == "PUT"
}

/// Tests that the parts of the path are UTF-8, and goes on.
fn asked_of_parts(
    alloc: Global,
    request: &RequestParts<'_>,
    route: Route,
    action: Action,
) -> Result<Asked, AllocError>
    ensures { IfOk result (λ asked. asked ≡ asked_of_parts request.now route action) }
{
    let path = path_of(request.target());
    match text_part(alloc, path, route.subject_place())? {
        Ok(subject) => match text_part(alloc, path, route.number_place())? {
            Ok(number) => asked_of_texts(alloc, request, route, action, &subject, &number),
            Err(refusal) => Ok(closing(refusal)),
        },
        Err(refusal) => Ok(closing(refusal)),
    }
}

/// Tests that the body is whole, and goes on.
fn asked_of_texts(
    alloc: Global,
    request: &RequestParts<'_>,
    route: Route,
    action: Action,
    subject: &Option<PathPart<'_>>,
    number: &Option<PathPart<'_>>,
) -> Result<Asked, AllocError>
    ensures { IfOk result (λ asked. asked ≡ asked_of_texts request.now route action subject.now number.now) }
{
    match request.body() {
        Some(body) => asked_of_body(alloc, request, route, action, subject, number, body),
        None => Ok(closing(Refusal::BadRequest)),
    }
}

/// Tests that the version in the path is valid and the body is a JSON object, and goes on.
fn asked_of_body(
    alloc: Global,
    request: &RequestParts<'_>,
    route: Route,
    action: Action,
    subject: &Option<PathPart<'_>>,
    number: &Option<PathPart<'_>>,
    body: &[u8],
) -> Result<Asked, AllocError>
    ensures { IfOk result (λ asked. asked ≡ asked_of_body request.now route action subject.now number.now body.now) }
{
    if names_version(route) && named_version(route, number).is_none() {
        return Ok(open_refusal(Refusal::InvalidVersion));
    }
    match object_in(alloc, request.method(), body)? {
        Some(object) => asked_of_object(alloc, request, route, action, subject, number, &object),
        None => Ok(closing(Refusal::BadRequest)),
    }
}

/// Returns the JSON object in the body; `null` if the method takes no body.
fn object_in(alloc: Global, method: &str, body: &[u8]) -> Result<Option<Value>, AllocError>
    ensures { IfOk result (λ found. option_map view found ≡ object_in method.now body.now) }
{
    if takes_body(method) {
        body::object_in(alloc, body)
    } else {
        Ok(Some(Value::Null))
    }
}

fn names_version(route: Route) -> bool
    ensures { result ≡ names_version route }
{
    match route {
        Route::Version | Route::VersionSchema | Route::CheckOne => true,
        Route::SchemaById
        | Route::IdVersions
        | Route::Subjects
        | Route::Subject
        | Route::Versions
        | Route::CheckAll
        | Route::Level
        | Route::SubjectLevel
        | Route::Mode
        | Route::SubjectMode => false,
    }
}

/// Returns the version that a path names; `None` if its route has none, or it is invalid.
fn named_version(route: Route, number: &Option<PathPart<'_>>) -> Option<VersionRef>
    ensures { result ≡ named_version route number.now }
{
    if !names_version(route) {
        return None;
    }
    match number {
        Some(text) => version_of(text.as_str()),
        None => None,
    }
}

/// Returns what the action asks with these members, or their refusal.
fn asked_of_object(
    alloc: Global,
    request: &RequestParts<'_>,
    route: Route,
    action: Action,
    subject: &Option<PathPart<'_>>,
    number: &Option<PathPart<'_>>,
    object: &Value,
) -> Result<Asked, AllocError>
    ensures { IfOk result (λ asked. asked ≡ asked_of_object request.now route action subject.now number.now (view object.now)) }
{
    let given = Given {
        alloc,
        subject: match subject {
            Some(text) => Some(text.as_str()),
            None => None,
        },
        id: match number {
            Some(text) => text.as_str(),
            None => "",
        },
        version: named_version(route, number),
        query: query_of(request.target()),
        object,
    };
    match action_asks(action, &given)? {
        Ok(asked) => Ok(asked),
        Err(refusal) => Ok(open_refusal(refusal)),
    }
}
