// The judge (compatibility checker with a cache) of a desk.
ghost use Rattle.std.specs.Prelude.{◌≡◌, IfErr, IfOk};
ghost use Rattle.reg_judge.specs.Judge.{IsJudgeRefusal, keeps_none};

use reg_judge::{Judge, JudgeError};
use std::alloc::Global;
use std::hash::RandomState;

/// How many schemas a desk's judge keeps.
const SCHEMAS: usize = 256;

/// How many verdicts a desk's judge keeps.
const VERDICTS: usize = 1_024;

/// Makes a judge with the cache that a desk needs: 256 schemas and 1,024 verdicts. Texts are found
/// by hashes under `keys`. Refused if memory is.
pub fn desk_judge(alloc: Global, keys: RandomState) -> Result<Judge, JudgeError>
    ensures new { IfOk result (λ judge. judge ≡ keeps_none 256 1024) }
    ensures refused { IfErr result (IsJudgeRefusal 256 1024) }
{
    Judge::new(alloc, keys, SCHEMAS, VERDICTS)
}
