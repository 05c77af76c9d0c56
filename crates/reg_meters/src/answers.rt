// Counts of answers, by path, method and status.
use crate::numbers::Counter;
use reg_routes::{Action, Endpoint, Route};

/// The statuses that are counted apart, each with its text (RFC 9110, section 15). The last place
/// is for all others.
pub static STATUSES: [(u16, &str); 13] = [
    (200, "200"),
    (400, "400"),
    (404, "404"),
    (405, "405"),
    (409, "409"),
    (411, "411"),
    (413, "413"),
    (415, "415"),
    (422, "422"),
    (431, "431"),
    (500, "500"),
    (503, "503"),
    (0, "other"),
];

/// The place of all other statuses.
const OTHER: usize = 12;

/// How many answers had each status.
#[derive(Drop)]
pub struct StatusMeter {
    /// In the order of [`STATUSES`].
    counts: [Counter; 13],
}

impl StatusMeter {
    /// Makes a meter that has counted nothing.
    pub const fn new() -> StatusMeter {
        StatusMeter {
            counts: [
                Counter::new(),
                Counter::new(),
                Counter::new(),
                Counter::new(),
                Counter::new(),
                Counter::new(),
                Counter::new(),
                Counter::new(),
                Counter::new(),
                Counter::new(),
                Counter::new(),
                Counter::new(),
                Counter::new(),
            ],
        }
    }

    /// Counts an answer with that status.
    pub(crate) fn count(&self, status: u16) {
        let place = STATUSES
            .iter()
            .position(|(number, _text)| *number == status)
            .unwrap_or(OTHER);
        self.counts[place].add(1);
    }

    /// Returns the counts in the order of [`STATUSES`].
    pub fn counts(&self) -> &[Counter] {
        &self.counts
    }
}

/// The answers to the requests of a path, by method.
#[derive(Drop)]
struct RouteMeter {
    get: StatusMeter,
    post: StatusMeter,
    put: StatusMeter,
    delete: StatusMeter,
    /// Answers to methods that the path doesn't offer.
    other: StatusMeter,
}

impl RouteMeter {
    const fn new() -> RouteMeter {
        RouteMeter {
            get: StatusMeter::new(),
            post: StatusMeter::new(),
            put: StatusMeter::new(),
            delete: StatusMeter::new(),
            other: StatusMeter::new(),
        }
    }

    fn of_action(&self, action: Option<Action>) -> &StatusMeter {
        match action {
            Some(action) => self.of_method(action.method()),
            None => &self.other,
        }
    }

    fn of_method(&self, method: &str) -> &StatusMeter {
        match method {
            "GET" => &self.get,
            "POST" => &self.post,
            "PUT" => &self.put,
            "DELETE" => &self.delete,
            _ => &self.other,
        }
    }
}

/// The answers to all requests, by path, method and status.
#[derive(Drop)]
pub struct AnswerMeters {
    schema_by_id: RouteMeter,
    id_versions: RouteMeter,
    subjects: RouteMeter,
    subject: RouteMeter,
    versions: RouteMeter,
    version: RouteMeter,
    version_schema: RouteMeter,
    check_all: RouteMeter,
    check_one: RouteMeter,
    level: RouteMeter,
    subject_level: RouteMeter,
    mode: RouteMeter,
    subject_mode: RouteMeter,
    /// Answers to requests that named no path of the registry.
    nowhere: StatusMeter,
}

impl AnswerMeters {
    /// Makes meters that have counted nothing.
    pub const fn new() -> AnswerMeters {
        AnswerMeters {
            schema_by_id: RouteMeter::new(),
            id_versions: RouteMeter::new(),
            subjects: RouteMeter::new(),
            subject: RouteMeter::new(),
            versions: RouteMeter::new(),
            version: RouteMeter::new(),
            version_schema: RouteMeter::new(),
            check_all: RouteMeter::new(),
            check_one: RouteMeter::new(),
            level: RouteMeter::new(),
            subject_level: RouteMeter::new(),
            mode: RouteMeter::new(),
            subject_mode: RouteMeter::new(),
            nowhere: StatusMeter::new(),
        }
    }

    /// Returns the meter of the requests with that endpoint.
    pub fn at(&self, endpoint: Endpoint) -> &StatusMeter {
        match endpoint.route {
            Some(route) => self.on(route).of_action(endpoint.action),
            None => &self.nowhere,
        }
    }

    fn on(&self, route: Route) -> &RouteMeter {
        match route {
            Route::SchemaById => &self.schema_by_id,
            Route::IdVersions => &self.id_versions,
            Route::Subjects => &self.subjects,
            Route::Subject => &self.subject,
            Route::Versions => &self.versions,
            Route::Version => &self.version,
            Route::VersionSchema => &self.version_schema,
            Route::CheckAll => &self.check_all,
            Route::CheckOne => &self.check_one,
            Route::Level => &self.level,
            Route::SubjectLevel => &self.subject_level,
            Route::Mode => &self.mode,
            Route::SubjectMode => &self.subject_mode,
        }
    }
}
