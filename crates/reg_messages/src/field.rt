// The fields of a head, as copies or as places in its bytes.
use base_text::Listed;

/// A field of a request's head (RFC 9110, section 5).
#[derive(Debug, Drop)]
pub struct HeaderField {
    pub name: Listed<u8>,
    /// The value, without the white space around it.
    pub value: Listed<u8>,
}

/// The fields of a head in their order: copies, or places in the head's bytes.
pub trait Fields<'f>: Copy {
    ghost use Rattle.std.specs.Prelude.{◌≡◌, List};
    ghost use Rattle.reg_messages.specs.declared.field.HeaderField.{HeaderField};
    ghost use Rattle.reg_messages.specs.Fields.{split_fields};

    /// The fields.
    ghost fields: { Self → List HeaderField };

    /// Returns the name and the value of the first field, and the fields after it; `None` if there
    /// is none.
    fn split_first(self) -> Option<(&'f [u8], &'f [u8], Self)>
        ensures { fields self ≡ split_fields fields result };
}

impl<'f> Fields<'f> for &'f [HeaderField] {
    ghost fields = { λ list. list.now };

    fn split_first(self) -> Option<(&'f [u8], &'f [u8], &'f [HeaderField])> {
        match self {
            [field, rest @ ..] => Some((field.name.as_slice(), field.value.as_slice(), rest)),
            [] => None,
        }
    }
}
