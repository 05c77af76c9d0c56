// The switches in a query.
ghost use Rattle.std.specs.Prelude.{◌≡◌, IfOk};
ghost use Rattle.reg_routes.specs.Query.{has_switch};

use form_urlencoded::parse;
use std::alloc::{AllocError, Global};

/// Returns whether a pair of the query has that name and the value `true`, after decoding it as a
/// form (`application/x-www-form-urlencoded`). Both are case-sensitive. The only error is out of
/// memory.
pub fn has_switch(alloc: Global, query: &[u8], name: &str) -> Result<bool, AllocError>
    ensures { IfOk result (λ on. on ≡ has_switch name.now query.now) }
{
    for pair in parse(alloc, query) {
        let (found, value) = pair?;
        if found.as_str() == name && value.as_str() == "true" {
            return Ok(true);
        }
    }
    Ok(false)
}
