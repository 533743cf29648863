//! Laws of conditions: what BETWEEN and IN stand for, and NULL in an IN list.

ghost use Rattle.std.specs.Prelude.{◌≡◌, [], is_none, List, map, Some, true};
ghost use Rattle.std.specs.List.{list_any};
ghost use Rattle.bw_model.specs.Condition.{found_rows, truth_at};
ghost use Rattle.bw_model.specs.Store.{Header as AnyHeader, Row as AnyRow, Table as AnyTable, Value as AnyValue};
ghost use Rattle.bw_lex.specs.declared.token.CompareOp.TheVariants.{Eq, Ge, Le};
ghost use Rattle.bw_sql.specs.declared.tree.Operand.{Operand as AnyOperand};
ghost use Rattle.bw_sql.specs.declared.tree.Operand.TheVariants.{Constant};
ghost use Rattle.bw_sql.specs.Tree.{among, between, comparison, each_of, more, negated, none, some_of, trees_of};

/// `x BETWEEN low AND high` has the same truth at every row as `x >= low AND x <= high`.
pub fn between_is_two_comparisons()
    ensures { (headers : List AnyHeader) (row : AnyRow) (x low high : AnyOperand) → truth_at headers row (between x low high) ≡ truth_at headers row (each_of (more (comparison x Ge low) (more (comparison x Le high) none))) }
{}

/// `x IN (a, b, ..)` has the same truth at every row as `x = a OR x = b OR ..`.
pub fn in_is_a_run_of_or()
    ensures { (headers : List AnyHeader) (row : AnyRow) (x : AnyOperand) (entries : List AnyValue) → truth_at headers row (among x entries) ≡ truth_at headers row (some_of (trees_of (map (λ entry. comparison x Eq (Constant entry)) entries))) }
{}

/// `x NOT IN (..)` finds no row where NULL is among the entries.
pub fn not_in_with_null_finds_nothing()
    ensures { (table : AnyTable) (x : AnyOperand) (entries : List AnyValue) → list_any is_none entries ≡ true → found_rows table (Some (negated (among x entries))) ≡ [] }
{}
