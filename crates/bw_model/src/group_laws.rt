//! Laws of groups: they partition the rows by their values; each value occurs once, in ascending order, with NULL last.

ghost use Rattle.std.specs.Prelude.{◌≡◌, ℕ, List, Option, length, map};
ghost use Rattle.std.specs.List.{AllPairs, Contains, sum_by};
ghost use Rattle.bw_model.specs.GroupLaws.{AreTogether, IsBefore, IsInOne};
ghost use Rattle.bw_model.specs.Groups.{groups_by};
ghost use Rattle.bw_model.specs.Store.{Row as AnyRow, value_from};

/// The values of groups ascend, so each occurs once; NULL is last.
pub fn groups_ascend()
    ensures { (place : Option ℕ) (rows : List AnyRow) → AllPairs IsBefore (map (λ group. group.value) (groups_by place rows)) }
{}

/// Each row is in exactly one group, and the sizes of the groups add up to the number of rows.
pub fn groups_part_rows()
    ensures one { (place : Option ℕ) (rows : List AnyRow) (row : AnyRow) → Contains rows row → IsInOne (groups_by place rows) row }
    ensures count { (place : Option ℕ) (rows : List AnyRow) → sum_by (λ group. length group.rows) (groups_by place rows) ≡ length rows }
{}

/// Two rows are in the same group exactly where their values are equal, or both NULL.
pub fn groups_are_of_same_values()
    ensures same { (place : Option ℕ) (rows : List AnyRow) (row other : AnyRow) → AreTogether (groups_by place rows) row other → value_from row place ≡ value_from other place }
    ensures together { (place : Option ℕ) (rows : List AnyRow) (row other : AnyRow) → Contains rows row → Contains rows other → value_from row place ≡ value_from other place → AreTogether (groups_by place rows) row other }
{}
