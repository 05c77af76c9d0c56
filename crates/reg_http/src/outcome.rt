// What became of a request.
use reg_requests::Endpoint;

/// The result of a request whose response was written.
#[derive(Clone, Copy, Debug, PartialEq, Eq)]
pub struct RequestOutcome {
    /// The endpoint of the request; none ([`Endpoint::nowhere`]) also if the request couldn't be
    /// read, or memory for it was refused.
    pub endpoint: Endpoint,
    /// The status of the response (RFC 9110, section 15).
    pub status: u16,
    /// Whether the server closes the connection after the response.
    pub closes: bool,
}
