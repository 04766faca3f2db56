// What the words of `explain sql` ask.
ghost use Rattle.std.specs.Prelude.{◌≡◌, map, option_map};
ghost use Rattle.std.specs.String.{string_bytes};
ghost use Rattle.vx_laws_explaining.specs.ExplainingWords as spec;
ghost use Rattle.vx_explaining.specs.ExplainedViews.{asked_view, form_view};

/// The form of an explanation.
#[derive(Clone, Copy, PartialEq, Eq, Debug)]
pub(crate) enum Form {
    /// Lines of text.
    Text,
    /// An object of JSON in a line.
    Json,
    /// A picture: a document of SVG.
    Picture,
}

/// What words ask.
#[derive(Clone, Copy, Debug)]
pub(crate) struct Asked<'w> {
    /// The statement.
    pub(crate) statement: &'w str,
    /// The form in which it is explained.
    pub(crate) form: Form,
}

/// The form that an option names.
fn form_of_word(word: &str) -> Option<Form>
    ensures { option_map form_view result ≡ spec.form_of_word word.now }
{
    match word {
        "--json" => Some(Form::Json),
        "--svg" => Some(Form::Picture),
        _ => None,
    }
}

/// A statement in the form that an option names.
fn asked_in<'w>(statement: &'w str, option: &str) -> Option<Asked<'w>>
    ensures { option_map asked_view result ≡ option_map (spec.asked_in statement.now) (spec.form_of_word option.now) }
{
    match form_of_word(option) {
        Some(form) => Some(Asked { statement, form }),
        None => None,
    }
}

/// What is asked behind `explain sql` by a statement, and by an option where there is one.
fn asked_behind(words: &[String]) -> Option<Asked<'_>>
    ensures { option_map asked_view result ≡ spec.asked_behind (map string_bytes words.now) }
{
    match words {
        [statement] => Some(Asked {
            statement: statement.as_str(),
            form: Form::Text,
        }),
        [statement, option] => asked_in(statement.as_str(), option.as_str()),
        _ => None,
    }
}

/// What words ask: `explain`, `sql`, a statement, and behind it `--json` or `--svg` where another form than text is asked. None where they have not this form.
#[tactic(auto, unfolding(vx_laws_explaining::specs::ExplainingWords::explaining_asked_of))]
pub(crate) fn asked_of(words: &[String]) -> Option<Asked<'_>>
    ensures { option_map asked_view result ≡ spec.explaining_asked_of (map string_bytes words.now) }
{
    match words {
        [first, second, behind @ ..] if first.as_str() == "explain" && second.as_str() == "sql" => {
            asked_behind(behind)
        }
        _ => None,
    }
}
