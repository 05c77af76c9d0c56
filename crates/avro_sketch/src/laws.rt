// The law of sketches. What is proved here costs nothing at run time: a function that needs it calls
// it.
ghost use Rattle.std.specs.Prelude.{List};
ghost use Rattle.avro_resolve.specs.avro_schema.declared.node.Node.{Node};
ghost use Rattle.avro_sketch.specs.Sketch.{HaveOneSketch};

use avro_data::samples_are_single;
use avro_resolve::schemas_have_one_verdict;

/// States that two sketches of the same two schemas are equal. Costs nothing at run time.
pub fn schemas_have_one_sketch()
    ensures { (r w : List Node) → HaveOneSketch r w }
{
    schemas_have_one_verdict();
    samples_are_single();
}
