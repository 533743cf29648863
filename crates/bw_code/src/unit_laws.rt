//! Laws of what scans cost.

ghost use Rattle.std.specs.Prelude.{Bool, List, count_by, false, length, ℕ, ◌<◌, ◌≡◌};
ghost use Rattle.bw_mask.specs.Masks.{len, row_at, MaskRows};
ghost use Rattle.bw_code.specs.Units.{Segmentation, segment_units, some_below, units_of_fetches, units_of_pair, units_of_scan};
ghost use Rattle.bw_code.specs.declared.compare.CmpOp.{CmpOp as Op};
ghost use Rattle.bw_code.specs.declared.compare.CodeTest.{CodeTest as Test};
ghost use Rattle.bw_code.specs.declared.compare.CodeTest.TheVariants.{All, Cmp, None, Range};
ghost use Rattle.bw_code.specs.declared.kind.Layout.{Layout as Form};
ghost use Rattle.bw_code.specs.declared.kind.Layout.TheVariants.{P};

/// A segment without a needed row costs nothing, and the cost of a segment depends on its own rows alone.
pub fn units_of_segments()
    ensures unneeded { (cut : Segmentation) (test : Test) (needed : ℕ → Bool) (code : ℕ → ℕ)
        → some_below cut.rows needed ≡ false → segment_units cut test needed code ≡ 0 }
    ensures own_rows { (cut : Segmentation) (test : Test) (needed also : ℕ → Bool) (code other : ℕ → ℕ)
        → ((j : ℕ) → j < cut.rows → needed j ≡ also j) → ((j : ℕ) → j < cut.rows → code j ≡ other j)
        → segment_units cut test needed code ≡ segment_units cut test also other }
{}

/// In each layout a test that no code or every code meets costs nothing. In plain codes any other test costs one unit
/// for each needed row, and a scan of two columns costs as much as fetching both codes.
pub fn units_of_scans()
    ensures none { (layout : Form) (width : ℕ) (needed : ℕ → Bool) (codes : List ℕ) → units_of_scan layout width None needed codes ≡ 0 }
    ensures all { (layout : Form) (width : ℕ) (needed : ℕ → Bool) (codes : List ℕ) → units_of_scan layout width All needed codes ≡ 0 }
    ensures plain_comparison { (width : ℕ) (op : Op) (constant : ℕ) (need : MaskRows) (codes : List ℕ) → length codes ≡ len need
        → units_of_scan P width (Cmp op constant) (row_at need) codes ≡ count_by (λ row. row) need.rows }
    ensures plain_range { (width low high : ℕ) (need : MaskRows) (codes : List ℕ) → length codes ≡ len need
        → units_of_scan P width (Range low high) (row_at need) codes ≡ count_by (λ row. row) need.rows }
    ensures plain_pair { (width : ℕ) (needed : ℕ → Bool) (codes others : List ℕ)
        → units_of_pair P width needed codes others ≡ units_of_fetches needed (length codes) }
{}
