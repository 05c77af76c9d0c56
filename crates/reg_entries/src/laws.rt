// The laws of what is sought among entries. What is proved here costs nothing at run time.
ghost use Rattle.reg_entries.specs.TwoSchemas.{NoneIsOneTextEach, SomeIsLeastOfTwo};

/// Proves which id `Entries::two_schemas` returns of a list of entries: `None` exactly if any two
/// entries of one id have one normal text, and an id exactly if two of its entries differ and no
/// smaller id has two such.
pub fn two_schemas_is_least()
    ensures none { NoneIsOneTextEach }
    ensures least { SomeIsLeastOfTwo }
{}
