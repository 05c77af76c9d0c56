// The laws of verdicts and of compatible pairs. What is proved here costs nothing at run time: a
// function that needs a law calls it.
ghost use Rattle.std.specs.Prelude.{List};
ghost use Rattle.avro_schema.specs.declared.node.Node.{Node};
ghost use Rattle.avro_resolve.specs.Trails.{AreCompatibleByObligations};
ghost use Rattle.avro_resolve.specs.Verdict.{HaveOneVerdict};

/// States that two schemas have at most one verdict.
pub fn schemas_have_one_verdict()
    ensures { (r w : List Node) → HaveOneVerdict r w }
{}

/// States that a pair of types is compatible if and only if it doesn't clash and each of its
/// obligations (the pairs that it needs) is compatible.
pub fn obligations_are_compatible()
    ensures { (r w : List Node) → AreCompatibleByObligations r w }
{}
