// Desks that take up one another's conversations.
use reg_http::Desk;

/// A desk (request handler) that can continue conversations of other desks of its kind. What its
/// last answer was based on, its *standing*, is handed on with a conversation, so that the client
/// reads its own writes, whichever desk answers.
pub trait SharedDesk: Desk {
    /// What an answer is based on.
    type Standing: Drop;

    /// A desk, and what its last answer was based on.
    ghost stands: { Self → Self.Standing → Type 0 };

    /// The desk before, what it learns of, and the desk after.
    ghost learns: { Self → Self.Standing → Self → Type 0 };

    /// Returns what the last answer was based on.
    fn standing(&self) -> Self::Standing
        ensures { stands self.now result };

    /// Learns of that standing: the next answers are based on no less.
    fn learn(&mut self, standing: &Self::Standing)
        ensures { learns self.old standing.now self.new };
}
