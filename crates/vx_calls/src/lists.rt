// Lists as texts of JSON.
ghost use Rattle.std.specs.Prelude.{◌≡◌, map, IfOk};
ghost use Rattle.std.specs.String.{string_bytes};
ghost use Rattle.vx_dtype.specs.Texts.{quoted_text};
ghost use Rattle.vx_calls.specs.Lists as spec;

use std::alloc::Global;
use vx_dtype::{Field, FieldName, FieldPath, Mem, Quoted};

/// A list of what these texts are: within brackets, with a comma between any two.
pub(crate) fn list_json(alloc: Global, texts: &[String]) -> Mem<String>
    ensures { IfOk result (λ list. string_bytes list ≡ spec.list_json (map string_bytes texts.now)) }
{
    let joined = texts.join(alloc, ",")?;
    Ok(format!(in alloc; "[{joined}]")?)
}

/// Names, each within quotes.
fn quoted_names(alloc: Global, names: &[FieldName]) -> Mem<Vec<String>>
    ensures { IfOk result (λ texts. map string_bytes texts.items ≡ map quoted_text names.now) }
{
    let mut texts = Vec::new(alloc);
    for name in names {
        texts.push(format!(in alloc; "{}", Quoted(name.as_str()))?)?;
    }
    Ok(texts)
}

/// A list of names, each within quotes.
pub(crate) fn names_json(alloc: Global, names: &[FieldName]) -> Mem<String>
    ensures { IfOk result (λ list. string_bytes list ≡ spec.names_json names.now) }
{
    let texts = quoted_names(alloc, names)?;
    list_json(alloc, texts.as_slice())
}

/// The names of a path.
fn path_names(alloc: Global, path: &FieldPath) -> Mem<Vec<FieldName>>
    ensures { IfOk result (λ names. names.items ≡ path.now) }
{
    let mut names = Vec::new(alloc);
    for part in path.parts() {
        let Field::Name(name) = part;
        names.push(name.clone()?)?;
    }
    Ok(names)
}

/// A list of the names of a path, each within quotes.
pub(crate) fn path_json(alloc: Global, path: &FieldPath) -> Mem<String>
    ensures { IfOk result (λ list. string_bytes list ≡ spec.names_json path.now) }
{
    let names = path_names(alloc, path)?;
    names_json(alloc, names.as_slice())
}
