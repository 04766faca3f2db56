// The program as a call.
ghost use Rattle.std.specs.Prelude.{◌≡◌, Option, map};
ghost use Rattle.std.specs.String.{string_bytes};
ghost use Rattle.vx_laws_explaining.specs.Explaining.{IsExplainingRun};
ghost use Rattle.vx_laws_listing.specs.Listing.{IsListingRun};
ghost use Rattle.vx_laws_shell.specs.Running.{IsShellRun, end_by};
ghost use Rattle.vx_laws_writing.specs.Writing.{IsWriteRun, files_end};
ghost use Rattle.vx_program.specs.Programs.{words_of};
ghost use Rattle.vx_program.specs.Telling.{IsTold, help_text, version_text};
ghost use Rattle.vx_program.specs.declared.words.Words.TheVariants as forms;
ghost use Rattle.vx_folder.specs.PathViews.{paths_by};
ghost use Rattle.vx_query.specs.Running as requests;
ghost use Rattle.vx_scan.specs.Stores.{StoreSeen};

use crate::telling::{help, version};
use crate::words::{Words, words_of};
use std::alloc::Global;
use std::time::Clock;
use vx_explaining::explain_sql;
use vx_files::Files;
use vx_io::{Sink, Source};
use vx_listing::blocks;
use vx_query::run;
use vx_shell::sql;
use vx_writing::write;

/// Does all that the program does, and answers its exit status. What a form of words has no use for it leaves as it is.
///
/// - Words that begin with `write` keep a table of the standard input as a file, as [`vx_writing::write`] says, and tell on standard error what they refuse.
/// - Words that begin with `sql` write the rows of a statement to the output, as [`vx_shell::sql`] says, and tell on standard error what they refuse or count.
/// - Words that begin with `explain` `sql` write what a statement would read to the output, as [`vx_explaining::explain_sql`] says, and tell on standard error
///   what they refuse.
/// - Words that begin with `blocks` write the columns and the blocks of a block file to the output, as [`vx_listing::blocks`] says, and tell on standard error
///   what they refuse.
/// - `--help`, `-h` or `help` alone writes the forms of words to the output, and `-V` alone the version.
/// - All others are of a request, as [`vx_query::run`] says, and write their text to the output.
pub fn program<F: Files, I: Source, O: Sink, E: Sink, C: Clock>(
    alloc: Global,
    words: &[String],
    files: &mut F,
    input: &mut I,
    output: &mut O,
    errors: &mut E,
    clock: &C,
) -> u8
    ensures writes { let source = end_by I.left I.faults in let end = files_end F.kept F.faults in words_of (map string_bytes words.now) ≡ forms.Writing →
        IsWriteRun (map string_bytes words.now) (source input.old) (source input.new) (end files.old) (end files.new) result × (output.new ≡ output.old) }
    ensures asks { let source = end_by I.left I.faults in let sink = end_by O.written O.faults in words_of (map string_bytes words.now) ≡ forms.Statements →
        IsShellRun (map string_bytes words.now) (paths_by (F.kept files.old) (F.listed files.old)) (source input.old) (source input.new) (sink output.old) (sink output.new) result
        × (files.new ≡ files.old) }
    ensures explains { let source = end_by I.left I.faults in let out = end_by O.written O.faults in let told = end_by E.written E.faults in
        words_of (map string_bytes words.now) ≡ forms.Explaining → IsExplainingRun (map string_bytes words.now) (paths_by (F.kept files.old) (F.listed files.old)) (source input.old)
        (source input.new) (out output.old) (out output.new) (told errors.old) (told errors.new) result × (files.new ≡ files.old) }
    ensures lists { let out = end_by O.written O.faults in let told = end_by E.written E.faults in words_of (map string_bytes words.now) ≡ forms.Listing →
        IsListingRun (map string_bytes words.now) (paths_by (F.kept files.old) (F.listed files.old)) (out output.old) (out output.new) (told errors.old) (told errors.new) result
        × (files.new ≡ files.old) × (input.new ≡ input.old) }
    ensures helps { let sink = end_by O.written O.faults in words_of (map string_bytes words.now) ≡ forms.Help →
        IsTold help_text (sink output.old) (sink output.new) result × (files.new ≡ files.old) × (input.new ≡ input.old) × (errors.new ≡ errors.old) }
    ensures versions { let sink = end_by O.written O.faults in words_of (map string_bytes words.now) ≡ forms.Version →
        IsTold version_text (sink output.old) (sink output.new) result × (files.new ≡ files.old) × (input.new ≡ input.old) × (errors.new ≡ errors.old) }
    ensures runs { let source = requests.end_by I.left I.faults in let sink = requests.end_by O.written O.faults in
        words_of (map string_bytes words.now) ≡ forms.Requests → ((used : Option StoreSeen)
        × requests.IsRun (requests.form_of (map string_bytes words.now)) (source input.old) (source input.new) (sink output.old) (sink output.new) used result)
        × (files.new ≡ files.old) × (errors.new ≡ errors.old) }
{
    match words_of(words) {
        Words::Writing => write(alloc, words, files, input, errors),
        Words::Statements => sql(alloc, words, files, input, output, errors, clock),
        Words::Explaining => explain_sql(alloc, words, files, input, output, errors),
        Words::Listing => blocks(alloc, words, files, output, errors),
        Words::Help => help(output),
        Words::Version => version(output),
        Words::Requests => run(alloc, words, input, output, &mut None),
    }
}
