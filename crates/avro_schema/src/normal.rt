// The normal text of a schema: its JSON with no spaces, the members of each object in byte order
// of their names.
ghost use Rattle.std.specs.Prelude.{◌≡◌, ◌≤◌, Some, false, length, IfOk};
ghost use Rattle.serde_json.specs.Read.{read};
ghost use Rattle.json_tree.specs.View.{view};
ghost use Rattle.serde_json.specs.Written.{compact_text, has_float};
ghost use Rattle.avro_schema.specs.Schema.{schema_of};

use crate::limits::TEXT_LIMIT;
use base_text::Text;
use compact_length::compact_texts_are_no_longer;
use json_tree::Json;
use std::alloc::{AllocError, Global};

/// Writes the normal text of the schema in `text`. The only error is out of memory.
pub(crate) fn normal_of(alloc: Global, text: &str, value: &Json<'_>) -> Result<Text, AllocError>
    requires of_text { read text.now ≡ Some (view value.now) }
    requires within { length text.now ≤ TEXT_LIMIT }
    requires whole { has_float (view value.now) ≡ false }
    ensures text { IfOk result (λ normal. normal ≡ compact_text (view value.now)) }
    ensures same { IfOk result (λ normal. schema_of normal ≡ schema_of text.now) }
{
    compact_texts_are_no_longer();
    Text::of_string(value.to_text(alloc, text.len())?)
}
