// The reasons of the codes that have several.
ghost use Rattle.std.specs.Prelude.{◌≡◌};
ghost use Rattle.reg_refusals.specs.Reason.{lack_text, reason_text, store_code};

/// The reason why an operation isn't permitted.
#[derive(Clone, Copy, Debug, PartialEq, Eq)]
pub enum Reason {
    /// The mode in force is READONLY.
    Readonly,
    /// An id is given, and the mode in force isn't IMPORT.
    IdNeedsImport,
    /// The mode in force is IMPORT, and no id is given.
    ImportNeedsId,
    /// The id that is given names another schema.
    IdNamesAnotherSchema,
    /// The version that is given is live, with another id or schema.
    VersionIsOccupied,
    /// IMPORT is set without force, and the scope has a live version.
    ScopeIsNotEmpty,
    /// The id that is given isn't a valid id.
    InvalidId,
    /// A version is given without an id.
    VersionNeedsImport,
    /// No version has the id that is given, and it isn't above the id mark, the highest id ever
    /// given: it may have been another schema's.
    IdIsNotAboveMark,
}

impl Reason {
    /// Returns the reason as it ends the message.
    pub fn as_str(self) -> &'static str
        ensures { result.now ≡ reason_text self }
    {
        match self {
            Reason::Readonly => "READONLY",
            Reason::IdNeedsImport => "id needs IMPORT",
            Reason::ImportNeedsId => "IMPORT needs id",
            Reason::IdNamesAnotherSchema => "id names another schema",
            Reason::VersionIsOccupied => "version is occupied",
            Reason::ScopeIsNotEmpty => "scope is not empty",
            Reason::InvalidId => "invalid id",
            Reason::VersionNeedsImport => "version needs IMPORT",
            Reason::IdIsNotAboveMark => "id is not above the mark",
        }
    }
}

/// A fault of the registry or of its store.
#[derive(Clone, Copy, Debug, PartialEq, Eq)]
pub enum StoreFault {
    /// Memory was refused.
    Memory,
    /// A version's record can't be read, so the registry takes no commands.
    OpaqueRecord,
    /// An id names two schemas, so the registry takes no commands.
    TwoSchemas,
    /// The next offset, id or version would be past its limit.
    NumbersUsedUp,
    /// The decided records aren't published yet, or it isn't known whether they are in the log.
    Unsettled,
    /// Other processes wrote to the log first, each time that the command was decided.
    Overtaken,
    /// The store that has the log declined the decided records, or can't be reached.
    Declined,
}

impl StoreFault {
    /// Returns the code in the response's body: 503 with two more digits if trying again later may
    /// help, else 50001.
    pub fn code(self) -> u32
        ensures { result ≡ store_code self }
    {
        match self {
            StoreFault::Memory
            | StoreFault::OpaqueRecord
            | StoreFault::TwoSchemas
            | StoreFault::NumbersUsedUp
            | StoreFault::Unsettled => 50001,
            StoreFault::Overtaken => 50301,
            StoreFault::Declined => 50302,
        }
    }

    /// Returns the fault as it ends the message.
    pub fn as_str(self) -> &'static str
        ensures { result.now ≡ lack_text self }
    {
        match self {
            StoreFault::Memory => "memory",
            StoreFault::OpaqueRecord => "opaque record",
            StoreFault::TwoSchemas => "two schemas for one id",
            StoreFault::NumbersUsedUp => "numbers used up",
            StoreFault::Unsettled => "unsettled",
            StoreFault::Overtaken => "overtaken",
            StoreFault::Declined => "declined",
        }
    }
}
