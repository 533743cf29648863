//! Two columns of which each is set to the other, and nothing else is set: their values are exchanged in place.

ghost use Rattle.std.specs.Prelude.{All, IfSome, length, slice_index_or, vec_len, ◌<◌, ◌≡◌, ◌≢◌};
ghost use Rattle.std.specs.List.{AllPairs};
ghost use Rattle.bw_mask.specs.Masks.{len};
ghost use Rattle.bw_column.specs.Columns.{ColumnView};
ghost use Rattle.bw_table.specs.Exchanges.{AreExchanged, AreExchangedBy};

use crate::column_pair::ColumnPair;
use crate::setting::SetTo;
use crate::taking::are_many;
use bw_column::Column;
use bw_mask::Mask;

/// The two columns whose values the sets exchange, if that is all that they do, their codes can be exchanged as they
/// are, and that is faster than to copy the values of a few rows.
pub(crate) fn exchanged_columns(
    columns: &Vec<Column>,
    found: &Mask,
    sets: &[(usize, SetTo)],
) -> Option<ColumnPair>
    requires named { All (λ set. set.0 < vec_len columns.now) sets.now }
    requires apart { AllPairs (λ set other. set.0 ≢ other.0) sets.now }
    ensures { IfSome result (AreExchangedBy sets.now columns.now.items) }
{
    if sets.len() != 2 || !are_many(found) {
        return None;
    }
    let (k, to) = sets[0];
    let (from, back) = sets[1];
    let (SetTo::Column(source), SetTo::Column(other)) = (to, back) else {
        return None;
    };
    if source != from || other != k {
        return None;
    }
    if !columns[k].is_alike(&columns[from]) {
        return None;
    }
    if k < from {
        Some(ColumnPair {
            first: k,
            second: from,
        })
    } else {
        Some(ColumnPair {
            first: from,
            second: k,
        })
    }
}

/// Exchanges the values of two columns in the found rows. Takes no memory.
pub(crate) fn exchange_columns(columns: &mut Vec<Column>, found: &Mask, pair: ColumnPair)
    requires there { pair.second < vec_len columns.old }
    requires layout { (c : ColumnView) → (slice_index_or columns.old.items pair.second c).layout ≡ (slice_index_or columns.old.items pair.first c).layout }
    requires encoding { (c : ColumnView) → (slice_index_or columns.old.items pair.second c).encoding ≡ (slice_index_or columns.old.items pair.first c).encoding }
    requires long { All (λ column. length column.values ≡ len found.now) columns.old.items }
    ensures { AreExchanged found.now pair columns.new.items columns.old.items }
{
    let (front, back) = columns.split_at_mut(pair.second);
    let _coded = front[pair.first].encoding();
    let _others_coded = back[0].encoding();
    front[pair.first].exchange_values(&mut back[0], found);
}
