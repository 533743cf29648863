//! The laws that justify merging answers from parts of a table.
#![tactic(auto)]

mod laws;

pub use laws::{
    counts_add_up, counts_are_asked, entries_have_ranks, found_rows_follow, groups_merge,
    groups_of_one_list_stay, lines_of_groups_merge, medians_are_by_counts,
    medians_bound_the_median, ranks_are_narrowed, selects_are_refused_alike, set_functions_merge,
    unfound_rows_change_nothing,
};
