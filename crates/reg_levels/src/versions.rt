// Versions that stand in their order.
ghost use Rattle.std.specs.Prelude.{◌↔◌, IsTrue};
ghost use Rattle.reg_levels.specs.RequiredPairs.{HasRisingVersions};

/// Returns whether each version is smaller than the next one, as checks and judgements require.
pub fn versions_rise<T>(olds: &[(u32, T)]) -> bool
    ensures { IsTrue result ↔ HasRisingVersions olds.now }
{
    for place in 1..olds.len() {
        if olds[place - 1].0 >= olds[place].0 {
            return false;
        }
    }
    true
}
