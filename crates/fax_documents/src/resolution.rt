//! How large pixels are.

ghost use Rattle.std.specs.Prelude.{◌≡◌, ◌+◌, ◌/◌, ◌<◌, ◌^◌};
ghost use Rattle.fax_documents.specs.Resolutions.{pixels_of_metre, points_of, rounded};

use tiff_read::{Ratio, ResolutionUnit};

/// How many pixels a unit has.
#[derive(Clone, Copy, Debug, PartialEq, Eq)]
pub struct Resolution {
    /// Those of a row.
    pub across: Ratio,
    /// Those of a column.
    pub down: Ratio,
    /// The unit.
    pub unit: ResolutionUnit,
}

/// Returns a part of a whole, rounded to the nearest number; `None` for no parts, or if it is no number of four bytes.
fn rounded(whole: u128, parts: u128) -> Option<u32>
    requires { whole + parts / 2 < 2 ^ 128 }
    ensures { result ≡ rounded whole parts }
{
    if parts == 0 {
        return None;
    }
    let nearest = (whole + parts / 2) / parts;
    if nearest <= u128::from(u32::MAX) {
        Some(nearest as u32)
    } else {
        None
    }
}

/// Returns how many pixels a metre has, by how many a unit has, rounded; `None` if the unit is none, or the number is none of four bytes.
pub fn pixels_of_metre(ratio: Ratio, unit: ResolutionUnit) -> Option<u32>
    ensures { result ≡ pixels_of_metre ratio unit }
{
    let above = u128::from(ratio.above);
    let below = u128::from(ratio.below);
    match unit {
        ResolutionUnit::None => None,
        // an inch is 254 ten-thousandths of a metre
        ResolutionUnit::Inch => rounded(above * 10000, below * 254),
        ResolutionUnit::Centimetre => rounded(above * 100, below),
    }
}

/// Returns how many ten-thousandths of a point some pixels cover, by how many a unit has, rounded. A point is the 72nd part of an inch.
pub fn points_of(pixels: u32, ratio: Ratio, unit: ResolutionUnit) -> Option<u32>
    ensures { result ≡ points_of pixels ratio unit }
{
    let whole = u128::from(pixels) * u128::from(ratio.below) * 720000;
    let above = u128::from(ratio.above);
    match unit {
        ResolutionUnit::None => None,
        ResolutionUnit::Inch => rounded(whole, above),
        ResolutionUnit::Centimetre => rounded(whole * 100, above * 254),
    }
}
