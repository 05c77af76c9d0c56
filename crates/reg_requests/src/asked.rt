// What a request asks.
use reg_leader::Command;
use reg_leader::reg_refusals::Refusal;
use reg_lookup::Query;

/// What a request asks: a query, a command, or a refusal.
#[derive(Debug, Drop)]
pub enum Asked {
    Query(Query),
    Command(Command),
    Refused {
        refusal: Refusal,
        /// Whether the server closes the connection after the refusal.
        closes: bool,
    },
}
