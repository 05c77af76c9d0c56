// The methods that a path offers.
ghost use Rattle.std.specs.Prelude.{◌≡◌};
ghost use Rattle.reg_refusals.specs.Allow.{allow_text};

/// The methods that a path supports (RFC 9110, section 10.2.1).
#[derive(Clone, Copy, Debug, PartialEq, Eq)]
pub enum Allow {
    Get,
    Post,
    GetPost,
    GetPut,
    GetDelete,
    PostDelete,
    GetPutDelete,
}

impl Allow {
    /// Returns the methods as the value of the field `Allow`.
    pub fn as_str(self) -> &'static str
        ensures { result.now ≡ allow_text self }
    {
        match self {
            Allow::Get => "GET",
            Allow::Post => "POST",
            Allow::GetPost => "GET, POST",
            Allow::GetPut => "GET, PUT",
            Allow::GetDelete => "GET, DELETE",
            Allow::PostDelete => "POST, DELETE",
            Allow::GetPutDelete => "GET, PUT, DELETE",
        }
    }
}
