ghost use Rattle.std.specs.Prelude.{◌≡◌, ◌<◌, length, map, slice_get, Some};
ghost use Rattle.av_signatures.specs.Rows.{HasDemands, HasMark, HasOperands, HasProperties, HasRole, HasSource, property, row_count};

use super::{Row, SIGNATURES, Signature};

/// What is asked of the operation of this number.
pub fn signature_of(number: u8) -> Signature
    requires { number < row_count }
    ensures operands { HasOperands number result.operands }
    ensures source { HasSource number result.source }
    ensures properties { HasProperties number (map (λ p. property p.0.now p.1) result.properties.now) }
    ensures demands { HasDemands number result.demands.now }
    ensures role { HasRole number result.role }
    ensures mark { HasMark number result.mark }
{
    let row = row_in(SIGNATURES, number as usize);
    Signature {
        operands: row.1,
        source: row.2,
        properties: row.3,
        demands: row.4,
        role: row.5,
        mark: row.6,
    }
}

fn row_in(rows: &[Row], place: usize) -> Row
    requires { place < length rows.now }
    ensures operands { slice_get (map (λ row. row.1) rows.now) place ≡ Some result.1 }
    ensures source { slice_get (map (λ row. row.2) rows.now) place ≡ Some result.2 }
    ensures properties { slice_get (map (λ row. map (λ p. property p.0.now p.1) row.3.now) rows.now) place ≡ Some (map (λ p. property p.0.now p.1) result.3.now) }
    ensures demands { slice_get (map (λ row. row.4.now) rows.now) place ≡ Some result.4.now }
    ensures role { slice_get (map (λ row. row.5) rows.now) place ≡ Some result.5 }
    ensures mark { slice_get (map (λ row. row.6) rows.now) place ≡ Some result.6 }
{
    rows[place]
}
