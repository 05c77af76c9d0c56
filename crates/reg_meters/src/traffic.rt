// The numbers of all requests, answers and connections.
use crate::answers::AnswerMeters;
use crate::connections::Connections;
use crate::numbers::Counter;
use crate::requests::RequestClass;
use crate::seconds::Seconds;
use reg_routes::Endpoint;

/// The requests, answers and connections of all nodes.
#[derive(Drop)]
pub struct Traffic {
    /// The answers, by path, method and status.
    pub answers: AnswerMeters,
    /// How long a worker took for a request, by its class.
    pub lookups: Seconds,
    pub checks: Seconds,
    pub commands: Seconds,
    pub refused: Seconds,
    /// The bytes of all answered requests, and those of their answers.
    pub request_bytes: Counter,
    pub response_bytes: Counter,
    pub connections: Connections,
}

impl Traffic {
    /// Makes meters that have counted nothing.
    pub const fn new() -> Traffic {
        Traffic {
            answers: AnswerMeters::new(),
            lookups: Seconds::new(),
            checks: Seconds::new(),
            commands: Seconds::new(),
            refused: Seconds::new(),
            request_bytes: Counter::new(),
            response_bytes: Counter::new(),
            connections: Connections::new(),
        }
    }

    /// Returns how long a worker took for the requests of that class.
    pub fn of_class(&self, class: RequestClass) -> &Seconds {
        match class {
            RequestClass::Lookup => &self.lookups,
            RequestClass::Check => &self.checks,
            RequestClass::Command => &self.commands,
            RequestClass::Refused => &self.refused,
        }
    }

    /// Counts an answered request: its endpoint, the status of the answer, the bytes of both, and
    /// how long a worker took, in microseconds.
    pub fn count(
        &self,
        endpoint: Endpoint,
        status: u16,
        request: usize,
        response: usize,
        took: u64,
    ) {
        self.answers.at(endpoint).count(status);
        self.of_class(RequestClass::of(endpoint.action)).count(took);
        self.request_bytes.add(request as u64);
        self.response_bytes.add(response as u64);
    }
}
