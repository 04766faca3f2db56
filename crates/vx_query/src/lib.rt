//! The program as a call over two ends: the scan that an input holds, its report, its explanation and its first rows, the block file of its table, the scan
//! of a block file, expressions that are shown, queries, and refusals.
#![tactic(auto)]

mod answers;
mod block_agreement;
mod built_causes;
mod causes;
mod endings;
mod exclusions;
mod file_causes;
mod file_scan_causes;
mod file_scans;
mod files;
mod form_causes;
mod forms;
mod generated_causes;
mod number_words;
mod queries;
mod query_causes;
mod refusal_causes;
mod refusals;
mod reports;
mod running;
mod statuses;
mod texts;
mod top_causes;
mod tops;

pub use block_agreement::requested_blocks_agree;
pub use built_causes::built_reports_are_whole;
pub use causes::{
    answers_are_complete, breaks_exactly, honest_reports_are_whole, read_faults_are_counted,
    reads_are_asked, reports_are_of_the_request, reports_are_typed, statuses_have_their_causes,
    want_of_memory_is_told, write_faults_are_counted,
};
pub use exclusions::causes_exclude_one_another;
pub use file_causes::{
    files_are_of_the_request, long_tables_are_refused_exactly, refused_files_have_their_causes,
};
pub use file_scan_causes::{
    bad_files_are_refused_exactly, file_expressions_are_refused_exactly,
    file_requests_are_refused_exactly, file_scans_are_of_the_request, file_scans_break_exactly,
    honest_file_reports_are_whole, refused_file_scans_have_their_causes,
    written_files_are_scanned_as_their_tables,
};
pub use form_causes::{
    explanations_are_of_the_request, help_and_version_are_told, refused_words_have_their_causes,
    scans_alone_break_and_hold, shown_texts_are_spelled, usage_exactly,
};
pub use generated_causes::generated_scans_are_summed;
pub use number_words::{words_tell_counts, words_tell_rows};
pub use query_causes::{text_is_named_exactly, texts_say_why};
pub use refusal_causes::{
    bad_hex_exactly, bad_json_exactly, bad_request_exactly, bad_table_exactly,
    build_refusals_exactly, filter_not_bool_exactly, input_too_long_exactly,
    typing_refusals_exactly, wire_refusals_exactly,
};
pub use reports::report_text;
pub use running::run;
pub use top_causes::{
    first_rows_are_complete, first_rows_are_of_the_request, honest_first_rows_are_of_all_rows,
    keys_are_refused_exactly, refused_searches_have_their_causes, searches_ask_their_reads,
    searches_break_exactly, searches_find_typed_rows,
};
pub use vx_io::{Sink, Source};
