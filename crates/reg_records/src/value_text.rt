// The text of a value, which may bring along what it was written from.
ghost use Rattle.std.specs.Prelude.{◌≡◌, Some, IfOk, IfSome, nat_eq, refl, string_bytes};
ghost use Rattle.std.specs.Ordering.{nat_cmp};
ghost use Rattle.std.specs.Cmp.Lexicographic.{pointwise, slice_cmp, nat_list_eq_equiv, nat_list_cmp_total, texts_ties, texts_po};
ghost use Rattle.std.specs.Cmp.{partial_equiv_from_equiv};
ghost use Rattle.reg_records.specs.WrittenValue.{written_value};

use crate::value::Value;
use base_text::Text;
use std::alloc::{AllocError, Global};
use std::cmp::Ordering;
use std::marker::Model;

/// What a value's text brings along.
#[derive(Clone, Debug, Drop)]
enum Brought {
    Nothing,
    /// The text of the schema that is read in it.
    Schema(Text),
    /// The value that it was written for.
    Value(Value),
}

/// The text of a record's value. Contracts see its bytes.
///
/// It may bring along the value that it was written for, so that a reader of the record needn't
/// parse the text again. Or it may bring the text of its schema, so that all readers of the record
/// share that text instead of copying it.
#[derive(Debug)]
pub struct ValueText {
    text: Text,
    brought: Brought,
}

impl Model for ValueText {
    ghost use Rattle.std.specs.Prelude.{List, ℕ};
    ghost use Rattle.reg_records.specs.Brought.{IsWrittenFor};

    ghost Value = { List ℕ };

    ghost view = { λ v. v.text };

    ghost invariant = { λ v. IsWrittenFor v.text v.brought };
}

impl ValueText {
    /// Makes the text that was written for that value. The only error is out of memory.
    pub(crate) fn of_value(text: String, value: &Value) -> Result<ValueText, AllocError>
        requires { written_value value.now ≡ Some (string_bytes text) }
        ensures { IfOk result (λ written. written ≡ string_bytes text) }
    {
        Ok(ValueText {
            text: Text::of_string(text)?,
            brought: Brought::Value(value.clone()?),
        })
    }

    /// Returns the same text, which brings that text of its schema along, unless it brings a value.
    /// The only error is out of memory.
    pub fn bringing(&self, schema: &Text) -> Result<ValueText, AllocError>
        ensures { IfOk result (λ text. text ≡ self.now) }
    {
        if let Brought::Value(_) = &self.brought {
            return self.clone();
        }
        Ok(ValueText {
            text: self.text.clone()?,
            brought: Brought::Schema(schema.clone()?),
        })
    }

    /// Returns the value that the text was written for, if it brings one.
    pub fn value(&self) -> Option<&Value>
        ensures { IfSome result (λ value. written_value value.now ≡ Some self.now) }
    {
        match &self.brought {
            Brought::Value(value) => Some(value),
            Brought::Schema(_) | Brought::Nothing => None,
        }
    }

    /// Returns the text.
    pub fn as_str(&self) -> &str
        ensures { result.now ≡ self.now }
    {
        self.text.as_str()
    }

    /// Returns the text of the schema that was read in this one: the one that it brings, if the two
    /// are equal, else a copy. The only error is out of memory.
    pub fn share(&self, alloc: Global, schema: &str) -> Result<Text, AllocError>
        ensures { IfOk result (λ text. text ≡ schema.now) }
    {
        if let Brought::Schema(brought) = &self.brought {
            if brought.as_str() == schema {
                return brought.clone();
            }
        }
        Text::copy_of(alloc, schema)
    }
}

impl From<Text> for ValueText {
    ghost from_gives = { λ text value. value ≡ text };

    fn from(text: Text) -> ValueText {
        ValueText {
            text,
            brought: Brought::Nothing,
        }
    }
}

/// Gives up its shares of the texts.
impl Drop for ValueText {
    fn drop(self) {
        let ValueText { text, brought } = self;
        drop(text);
        drop(brought);
    }
}

impl Clone for ValueText {
    ghost is_clone = { λ value copy. copy ≡ value };

    fn clone(&self) -> Result<ValueText, AllocError> {
        Ok(ValueText {
            text: self.text.clone()?,
            brought: self.brought.clone()?,
        })
    }
}

impl PartialEq for ValueText {
    ghost eq = { pointwise nat_eq };

    ghost laws = { partial_equiv_from_equiv nat_list_eq_equiv };

    fn eq(&self, other: &ValueText) -> bool {
        self.text == other.text
    }
}

impl Eq for ValueText {
    ghost laws = { nat_list_eq_equiv };
}

impl PartialOrd for ValueText {
    ghost partial_cmp = { λ a b. Some (slice_cmp nat_cmp a b) };

    ghost laws = { texts_po };

    fn partial_cmp(&self, other: &ValueText) -> Option<Ordering> {
        Some(self.cmp(other))
    }
}

impl Ord for ValueText {
    ghost cmp = { slice_cmp nat_cmp };

    ghost total = { nat_list_cmp_total };

    ghost matches_partial_cmp = { λ a b. refl };

    ghost matches_eq = { texts_ties };

    fn cmp(&self, other: &ValueText) -> Ordering {
        self.text.cmp(&other.text)
    }
}
