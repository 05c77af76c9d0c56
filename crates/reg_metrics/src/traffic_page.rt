// What the page says of connections and requests.
use crate::families::{by_label, counter, gauge, push_label, series};
use base_text::Listed;
use exposition::{Family, Fixed, LabelPair, Name, Number, Sample, Samples};
use reg_meters::{AnswerMeters, Connections, RequestClass, STATUSES, Traffic};
use reg_routes::{Endpoint, Route};
use std::alloc::{AllocError, Global};

/// The paths of the registry, in the order of the page.
static ROUTES: [Route; 13] = [
    Route::SchemaById,
    Route::IdVersions,
    Route::Subjects,
    Route::Subject,
    Route::Versions,
    Route::Version,
    Route::VersionSchema,
    Route::CheckAll,
    Route::CheckOne,
    Route::Level,
    Route::SubjectLevel,
    Route::Mode,
    Route::SubjectMode,
];

/// The methods that paths offer, in the order of the page.
static METHODS: [&str; 4] = ["GET", "POST", "PUT", "DELETE"];

/// The label of a path or a method that isn't the registry's.
const OTHER: &str = "other";

static CLASSES: [RequestClass; 4] = [
    RequestClass::Lookup,
    RequestClass::Check,
    RequestClass::Command,
    RequestClass::Refused,
];

/// Appends the requests, answers and connections of all nodes. The only error is out of memory.
pub fn traffic_families(
    alloc: Global,
    traffic: &Traffic,
    out: &mut Vec<Family>,
) -> Result<(), AllocError> {
    out.push(answered(alloc, traffic)?)?;
    out.push(durations(alloc, traffic)?)?;
    out.push(counter(
        alloc,
        Name::of("registry_http_request_bytes_total"),
        "Bytes of the requests that were answered.",
        Number::whole(traffic.request_bytes.count()),
    )?)?;
    out.push(counter(
        alloc,
        Name::of("registry_http_response_bytes_total"),
        "Bytes of the answers to these requests.",
        Number::whole(traffic.response_bytes.count()),
    )?)?;
    connection_families(alloc, &traffic.connections, out)
}

/// Makes the counts of requests by class, method, path and status. Counts of 0 are left out.
fn answered(alloc: Global, traffic: &Traffic) -> Result<Family, AllocError> {
    let mut samples = Vec::new(alloc);
    for route in &ROUTES {
        push_route(alloc, &traffic.answers, *route, &mut samples)?;
    }
    push_endpoint(alloc, &traffic.answers, Endpoint::nowhere(), &mut samples)?;
    Ok(Family {
        name: Name::of("registry_http_requests_total"),
        help: Fixed::of(
            "Requests that were answered. Refused are those whose path or method isn't the registry's, or that couldn't be read.",
        ),
        samples: Samples::Counter(Listed::from(samples)),
    })
}

/// Appends the requests of a path: those of each method that it offers, and then the others.
fn push_route(
    alloc: Global,
    answers: &AnswerMeters,
    route: Route,
    out: &mut Vec<Sample>,
) -> Result<(), AllocError> {
    let others = Endpoint {
        route: Some(route),
        action: None,
    };
    for method in &METHODS {
        let action = route.action(method);
        if action.is_some() {
            let endpoint = Endpoint { action, ..others };
            push_endpoint(alloc, answers, endpoint, out)?;
        }
    }
    push_endpoint(alloc, answers, others, out)
}

/// Appends the requests with that endpoint.
fn push_endpoint(
    alloc: Global,
    answers: &AnswerMeters,
    endpoint: Endpoint,
    out: &mut Vec<Sample>,
) -> Result<(), AllocError> {
    let counts = answers.at(endpoint).counts();
    for ((_number, status), count) in STATUSES.iter().zip(counts) {
        let count = count.count();
        if count > 0 {
            out.push(Sample {
                labels: endpoint_labels(alloc, endpoint, status)?,
                number: Number::whole(count),
            })?;
        }
    }
    Ok(())
}

fn endpoint_labels(
    alloc: Global,
    endpoint: Endpoint,
    status: &'static str,
) -> Result<Listed<LabelPair>, AllocError> {
    let method = match endpoint.action {
        Some(action) => action.method(),
        None => OTHER,
    };
    let route = match endpoint.route {
        Some(route) => route.pattern(),
        None => OTHER,
    };
    let mut labels = Vec::new(alloc);
    push_label(
        "class",
        RequestClass::of(endpoint.action).word(),
        &mut labels,
    )?;
    push_label("method", method, &mut labels)?;
    push_label("route", route, &mut labels)?;
    push_label("status", status, &mut labels)?;
    Ok(Listed::from(labels))
}

fn durations(alloc: Global, traffic: &Traffic) -> Result<Family, AllocError> {
    let mut all = Vec::new(alloc);
    for class in &CLASSES {
        let mut labels = Vec::new(alloc);
        push_label("class", class.word(), &mut labels)?;
        all.push(series(alloc, Listed::from(labels), traffic.of_class(*class))?)?;
    }
    Ok(Family {
        name: Name::of("registry_http_request_duration_seconds"),
        help: Fixed::of(
            "Seconds that a worker took for a request, from the whole request to its answer.",
        ),
        samples: Samples::Histogram(Listed::from(all)),
    })
}

fn connection_families(
    alloc: Global,
    connections: &Connections,
    out: &mut Vec<Family>,
) -> Result<(), AllocError> {
    out.push(gauge(
        alloc,
        Name::of("registry_http_connections"),
        "Connections that are open.",
        Number::whole(connections.open()),
    )?)?;
    out.push(counter(
        alloc,
        Name::of("registry_http_connections_accepted_total"),
        "Connections that got a place.",
        Number::whole(connections.accepted.count()),
    )?)?;
    let closed = [
        ("done", connections.done.count()),
        ("late", connections.late.count()),
        ("room", connections.room.count()),
        ("memory", connections.memory.count()),
        ("failed", connections.failed.count()),
    ];
    out.push(Family {
        name: Name::of("registry_http_connections_closed_total"),
        help: Fixed::of(
            "Connections that were closed: by their client or behind an answer (done), since they took too long (late), for another one (room), \
             since they held most of too many bytes (memory), or by a fault of the system (failed).",
        ),
        samples: Samples::Counter(by_label(alloc, "reason", &closed)?),
    })?;
    Ok(())
}
