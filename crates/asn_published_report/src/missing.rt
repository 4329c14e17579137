//! Modules that are imported from and not given.
ghost use Rattle.std.specs.Prelude.{◌≡◌, IfOk, string_bytes};
ghost use Rattle.asn_published_report.specs.Missing.{import_json, import_line, import_object, imports_json, imports_lines};

use crate::json::quoted;
use crate::telling::file_named;
use asn_published_text::modules::World;
use std::alloc::{AllocError, Global};

/// A module that is imported from and not given: which of the given texts has the import, from 0, on which line its
/// name is there, from 1, and the name.
#[derive(Drop)]
pub struct MissingImport {
    pub text: usize,
    pub line: u32,
    pub module: String,
}

/// Each import of a module that is not given, in the order of the texts.
pub fn missing_imports(alloc: Global, world: &World<'_>) -> Result<Vec<MissingImport>, AllocError> {
    let mut missing = Vec::new(alloc);
    for module in &world.modules {
        let Some(tokens) = world.files.get(module.file) else {
            break;
        };
        for at in &module.sources {
            let name = tokens.text(*at);
            if world.module_names.get(name).is_none() {
                missing.push(MissingImport {
                    text: module.file,
                    line: tokens.line(*at),
                    module: String::from_str(alloc, name)?,
                })?;
            }
        }
    }
    Ok(missing)
}

/// The line of an import, as `FILE:LINE: MODULE: a module that is not given`.
fn import_line(alloc: Global, files: &[&str], one: &MissingImport) -> Result<String, AllocError>
    ensures { IfOk result (λ text. string_bytes text ≡ import_line files.now one.now) }
{
    let file = file_named(files, one.text);
    let line = one.line;
    let module = one.module.as_str();
    format!(in alloc; "{file}:{line}: {module}: a module that is not given\n")
}

/// A line for each import of a module that is not given, `files` being the names of the files of the texts.
///
/// # Errors
/// `AllocError` where an allocation failed.
pub fn missing_text(
    alloc: Global,
    files: &[&str],
    missing: &[MissingImport],
) -> Result<String, AllocError>
    ensures { IfOk result (λ text. string_bytes text ≡ imports_lines files.now missing.now) }
{
    let mut text = String::new(alloc);
    for one in missing {
        let line = import_line(alloc, files, one)?;
        text.push_str(line.as_str())?;
    }
    Ok(text)
}

/// The import as an object of JSON on a line of its own: the module, the file and the line.
#[tactic(auto, unfolding(crate::specs::Missing::import_object))]
fn import_object(alloc: Global, name: &str, file: &str, line: u32) -> Result<String, AllocError>
    ensures { IfOk result (λ text. string_bytes text ≡ import_object name.now file.now line) }
{
    format!(in alloc;
        "{{\"import\":{name},\"file\":{file},\"line\":{line},\"status\":\"not given\"}}\n"
    )
}

/// An import as an object of JSON on a line.
fn import_json(alloc: Global, files: &[&str], one: &MissingImport) -> Result<String, AllocError>
    ensures { IfOk result (λ text. string_bytes text ≡ import_json files.now one.now) }
{
    let name = quoted(alloc, one.module.as_str())?;
    let file = quoted(alloc, file_named(files, one.text))?;
    import_object(alloc, name.as_str(), file.as_str(), one.line)
}

/// The imports of modules that are not given as JSON: a line for each, an object with the module, the file and the
/// line. It has the member `import` where the object of a type has `type`.
///
/// # Errors
/// `AllocError` where an allocation failed.
pub fn missing_json(
    alloc: Global,
    files: &[&str],
    missing: &[MissingImport],
) -> Result<String, AllocError>
    ensures { IfOk result (λ out. string_bytes out ≡ imports_json files.now missing.now) }
{
    let mut out = String::new(alloc);
    for one in missing {
        let object = import_json(alloc, files, one)?;
        out.push_str(object.as_str())?;
    }
    Ok(out)
}
