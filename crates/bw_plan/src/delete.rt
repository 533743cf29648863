//! DELETE: resolves the columns of its condition to indexes.

ghost use Rattle.std.specs.Prelude.{◌≡◌, option_map};
ghost use Rattle.bw_plan.specs.Checks.{Answers, condition_tests};
ghost use Rattle.bw_plan.specs.Plans.{plan_of, planned};
ghost use Rattle.bw_sql.specs.Tree.{condition_of};

use crate::headers::Headers;
use crate::plan::RowCondition;
use crate::resolution::check_condition;
use crate::select::plan_if_any;
use bw_model::Refusal;
use bw_sql::Condition;
use std::alloc::Global;

/// The condition of a DELETE over the indexes of these columns. It is refused if it names a column that doesn't exist,
/// and else if an IN list has more than 1,000 entries. Refusals are found before anything is allocated.
pub fn resolve_delete(
    alloc: Global,
    headers: &Headers<'_>,
    condition: &Option<Condition>,
) -> Result<Option<RowCondition>, Refusal>
    ensures { let found = option_map condition_of condition.now in Answers (condition_tests headers.now found) result (λ plan. option_map plan_of plan ≡ option_map (planned headers.now) found) }
{
    check_condition(headers, condition)?;
    let condition = plan_if_any(alloc, headers, condition)?;
    Ok(condition)
}
