//! The laws that justify merging the answers of several lists of rows into one. Each is about two lists; more lists are
//! merged one after the other.

ghost use Rattle.bw_merge.specs.CountLaws.{AndNarrows, RowsBelowAreCounted, RowsInsideAreFound, RowsOfGroupAreFound, RowsUpToAreCounted};
ghost use Rattle.bw_merge.specs.GroupLaws.{
  FirstGroupStays,
  GroupItemsMerge,
  GroupLinesMerge,
  GroupedAnswersAreLines,
  GroupedAnswersMerge,
  GroupsHaveRows,
  GroupsMerge,
  RowsOfValueFollow,
  SecondGroupStays,
  ValuesMerge,
};
ghost use Rattle.bw_merge.specs.ItemLaws.{AnswersMerge, ItemsMerge, LinesMerge};
ghost use Rattle.bw_merge.specs.RankLaws.{
  BelowAddsUp,
  CountsGiveMedian,
  EntriesHaveRanks,
  MedianIsBetween,
  MedianIsByCounts,
  MedianIsOne,
  MedianIsThere,
  RankIsHeld,
  RankIsInside,
  RanksAreOfOne,
  RanksHaveEntries,
  UpToAddsUp,
};
ghost use Rattle.bw_merge.specs.RowLaws.{AnswersFollow, FirstAnswers, FoundRowsFollow, LinesFollow, RefusedAlike, SecondAnswers};

/// The rows that a condition finds in the concatenation of two lists are those that it finds in the first, followed by
/// those in the second. The same holds for the lines, and the whole answer, of a SELECT of columns.
pub fn found_rows_follow()
    ensures rows { FoundRowsFollow }
    ensures lines { LinesFollow }
    ensures answers { AnswersFollow }
{}

/// If a condition finds nothing in one of two lists, any SELECT has the same answer for both as for the other list.
pub fn unfound_rows_change_nothing()
    ensures first { FirstAnswers }
    ensures second { SecondAnswers }
{}

/// A SELECT has the same refusal, or none, over all tables with the same columns, whatever their rows are.
pub fn selects_are_refused_alike()
    ensures { RefusedAlike }
{}

/// COUNT, SUM, MIN or MAX of two lists is the merge of its results for each: counts and sums are added, MIN takes the
/// smaller and MAX the greater, and if one is NULL the other is taken. The same holds for the line of a whole answer
/// without groups.
pub fn set_functions_merge()
    ensures items { ItemsMerge }
    ensures lines { LinesMerge }
    ensures answers { AnswersMerge }
{}

/// The groups of two lists: their values are those of the groups of either list, each once, ascending, with NULL last.
/// The rows of each group are those of the first list's group of this value, followed by those of the second's.
pub fn groups_merge()
    ensures values { ValuesMerge }
    ensures rows { RowsOfValueFollow }
    ensures groups { GroupsMerge }
    ensures have { GroupsHaveRows }
{}

/// If only one of two lists has a group of some value, it is the group of both, and any item has the same result for
/// it.
pub fn groups_of_one_list_stay()
    ensures first { FirstGroupStays }
    ensures second { SecondGroupStays }
{}

/// The result of any item except MEDIAN for a group of two lists is the merge of its results for the group's rows in
/// each. So the lines of groups, and whole answers to a SELECT with GROUP BY, are merged by value: one line for each
/// value of either list, ascending, with NULL last. It is the merge of both lines, or the one line if only one list has
/// the value.
pub fn lines_of_groups_merge()
    ensures items { GroupItemsMerge }
    ensures lines { GroupLinesMerge }
    ensures shown { GroupedAnswersAreLines }
    ensures answers { GroupedAnswersMerge }
{}

/// The number of values of two lists that are at most a number, or less than it, is the sum of the numbers for each
/// list.
pub fn counts_add_up()
    ensures up_to { UpToAddsUp }
    ensures below { BelowAddsUp }
{}

/// The entry of the sorted values at an index is the only value that has its rank by counts.
pub fn entries_have_ranks()
    ensures is { EntriesHaveRanks }
    ensures only { RanksHaveEntries }
    ensures one { RanksAreOfOne }
{}

/// The median of values is the one of them for which at least half of the values, rounded up, are at most it, and fewer
/// are at most any smaller number. A nonempty list has a median.
pub fn medians_are_by_counts()
    ensures is { MedianIsByCounts }
    ensures only { CountsGiveMedian }
    ensures one { MedianIsOne }
    ensures there { MedianIsThere }
{}

/// The median of two lists is between the smaller and the greater of their medians.
pub fn medians_bound_the_median()
    ensures { MedianIsBetween }
{}

/// The value of a rank is in a range if fewer values than the rank are below the range, and at least as many as the
/// rank are at most the range's end. Among the values of the range, its rank is reduced by the number of values below
/// the range.
pub fn ranks_are_narrowed()
    ensures held { RankIsHeld }
    ensures inside { RankIsInside }
{}

/// Counts are queried by additional conditions: `a AND b` finds what `b` finds among the rows that `a` finds; `column
/// <= v` and `column < v` find as many rows as there are values at most v, or less than v; `column BETWEEN low AND
/// high` finds the rows of the values of a range; and `column = v` or `column IS NULL` finds the rows of a group.
pub fn counts_are_asked()
    ensures narrows { AndNarrows }
    ensures up_to { RowsUpToAreCounted }
    ensures below { RowsBelowAreCounted }
    ensures inside { RowsInsideAreFound }
    ensures group { RowsOfGroupAreFound }
{}
