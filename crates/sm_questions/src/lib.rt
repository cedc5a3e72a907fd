//! The verdict on a policy, and answers to questions about it: the label of a name, the rule that grants an access, the
//! accesses of a policy, and its rules.
#![tactic(auto)]

mod buffer;
mod change_laws;
mod checking;
mod comparing;
mod explaining;
mod filtering;
mod first_lines;
mod judging;
mod labelling;
mod left;
mod line_starts;
mod listed;
mod listing;
mod lookups;
mod lost;
mod one_line;
mod part;
mod passed;
mod quotes;
mod relabelling;
mod rule_changes;
mod rule_diff;
mod rule_filter;
mod rule_laws;
mod rule_listing;
mod showing;
mod showing_all;
mod tallying;
#[cfg(test)]
mod tests;
mod type_numbers;
mod unknown;

pub use buffer::write_full;
pub use change_laws::counts_add_up;
pub use checking::{Verdict, check, judge, refused_line};
pub use comparing::diff;
pub use explaining::explain;
pub use filtering::{Filter, FilterOptions, Target, read_filter};
pub use judging::check_all;
pub use labelling::label;
pub use listing::access;
pub use lookups::byte_at;
pub use quotes::Quotes;
pub use rule_changes::RulesFile;
pub use rule_diff::diff_rules;
pub use rule_filter::{RuleFilter, RuleOptions, read_rule_filter};
pub use rule_laws::{first_is_explained, words_leave_one};
pub use rule_listing::rules;
pub use showing::shown_lines;
pub use showing_all::all_shown_lines;
pub use unknown::{Unknown, read_access, unknown_text};
