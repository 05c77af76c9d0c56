// Requests, and what answers to them mean.
ghost use Rattle.std.specs.Prelude.{◌≡◌, Some, None, if◌then◌else◌};
ghost use Rattle.reg_adapter_chain.specs.Requests.{crossing, is_kept, meaning};

use base_text::Listed;
use reg_adapter::AdapterAnswer as Said;
use reg_chain::ChainAnswer;
use reg_records::Record;

/// A request to an adapter that has no answer yet.
#[derive(Debug, Drop)]
pub struct AppendRequest {
    /// The records that it asks to append; none for a check.
    pub batch: Listed<Record>,
    /// Whether a batch of others came since it was asked.
    pub crossed: bool,
}

/// Notes that a batch of others came.
pub(crate) fn cross(request: &mut Option<AppendRequest>)
    ensures { request.new ≡ crossing request.old }
{
    if let Some(open) = request {
        open.crossed = true;
    }
}

/// Returns whether the answer says that records are in the chain; a check has none.
pub(crate) fn is_kept(said: Said, batch: &[Record]) -> bool
    ensures { result ≡ is_kept said batch.now }
{
    match (said, batch) {
        (Said::Kept, [_, ..]) => true,
        _ => false,
    }
}

/// Returns the answer for the waiting command, if one waits.
pub(crate) fn answer_for(waits: bool, said: Said, crossed: bool) -> Option<ChainAnswer>
    ensures { result ≡ (if waits then Some (meaning said crossed) else None) }
{
    if !waits {
        return None;
    }
    Some(match said {
        Said::Kept if crossed => ChainAnswer::Behind,
        Said::Kept => ChainAnswer::Kept,
        Said::Behind => ChainAnswer::Behind,
        Said::Declined => ChainAnswer::Declined,
        Said::Lost => ChainAnswer::Unknown,
    })
}
