// Where opaque versions are.
ghost use Rattle.std.specs.Prelude.{◌≡◌};
ghost use Rattle.reg_fold.specs.Spots.{Forgets, elsewhere, spot_of};

use reg_values::base_text::Text;
use reg_values::reg_records::Record;
use std::collections::BTreeSet;

/// The offset of a version's record, and the version's subject and number.
pub(crate) type Spot = (u64, (Text, u32));

/// Returns the spot of the record that was at the place, if there was one.
pub(crate) fn spot_of(before: Option<Record>, place: (Text, u32)) -> Option<Spot>
    ensures { result ≡ spot_of before place }
{
    let record = before?;
    Some((record.offset, place))
}

/// Removes the spot, if there is one.
pub(crate) fn forget(spots: &mut BTreeSet<Spot>, spot: &Option<Spot>)
    ensures { Forgets spot.now spots.old spots.new }
{
    if let Some(spot) = spot {
        spots.remove(spot);
    }
}

/// Removes the spot, if there is one, unless its record is at that offset.
pub(crate) fn forget_elsewhere(spots: &mut BTreeSet<Spot>, spot: &Option<Spot>, offset: u64)
    ensures { Forgets (elsewhere spot.now offset) spots.old spots.new }
{
    if let Some(spot) = spot {
        if spot.0 != offset {
            spots.remove(spot);
        }
    }
}
