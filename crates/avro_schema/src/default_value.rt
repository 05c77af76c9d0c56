// The default of a field.
ghost use Rattle.std.specs.Prelude.{◌≡◌, IfOk};
ghost use Rattle.serde_json.specs.View.{view};
ghost use Rattle.json_tree.specs.View.{view as tree_view};
ghost use Rattle.avro_schema.specs.Plain.{IsPlain};

use json_tree::Json;
use serde_json::Value;
use std::alloc::{AllocError, Global};
use std::marker::Model;

/// A field's default as written, unchecked. Contracts see it as JSON data.
#[derive(Drop)]
pub struct DefaultValue {
    json: Value,
}

impl Model for DefaultValue {
    ghost use Rattle.serde_json.specs.Data.{Data};
    ghost use Rattle.serde_json.specs.View.{view as data_of};
    ghost use Rattle.avro_schema.specs.JsonCode.{json_code};

    ghost Value = { Data };

    ghost coded = { json_code };

    ghost view = { λ default. data_of default.json };
}

impl DefaultValue {
    /// Copies a JSON value. The only error is out of memory.
    pub(crate) fn copy_of(alloc: Global, json: &Json<'_>) -> Result<DefaultValue, AllocError>
        requires { IsPlain (tree_view json.now) }
        ensures { IfOk result (λ default. default ≡ tree_view json.now) }
    {
        Ok(DefaultValue {
            json: json.to_value(alloc)?,
        })
    }

    /// Returns the default as JSON.
    pub fn json(&self) -> &Value
        ensures { view result.now ≡ self.now }
    {
        &self.json
    }
}
