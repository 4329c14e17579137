//! Which text is read as the module of a job.
ghost use Rattle.std.specs.Prelude.{◌≡◌, ◌≢◌, ◌∷◌, ◌++◌, [], None, false, true, IfOk, IfSome, IsSomeAnd, IsUtf8, MatchOption, OnOk, string_bytes};
ghost use Rattle.asn_module.specs.ModuleView.{types_view};
ghost use Rattle.asn_module.specs.Accepted.{Accepted};
ghost use Rattle.asn_module.specs.declared.fault.ModuleFault.{ModuleFault};
ghost use Rattle.asn_jobs.specs.Lines.{job_lines, lines_of, module_text};
ghost use Rattle.asn_request.specs.Request.{texts_of};
ghost use Rattle.asn_module_files.specs.Sources.{IsInput, IsInputOf, IsOwn, IsOwnInput, IsRead, IsReadText, IsReadWithin, IsNotLarge, mark};

use crate::published::Published;
use asn_jobs::{Job, cut_input};
use asn_module::{BoundFault, Module, ModuleFault, read_within};
use asn_published::{
    Flattened, Options, PublishedFault, Status, TypeReport, flatten_alone_within, flatten_within,
    missing_text, refused_text, report_text, text_of_octets, way_text,
};
use std::alloc::{AllocError, Global};

/// The most that a module may grow to once its references are followed, as `asn_module::read_within` counts it: each
/// type one, each item of an ENUMERATED one, each name in them its octets. What is counted takes some 54 octets of
/// memory each.
pub const MOST: u32 = 10_000_000;

/// What stands for the name of a file where a text is that of standard input.
const STDIN: &str = "<stdin>";

/// The octets that a job reads instead of standard input, if any, the lines that say what became of its types, and
/// whether no type of the module is refused.
#[derive(Drop)]
pub struct Instead {
    pub octets: Option<Vec<u8>>,
    pub remarks: String,
    /// What the published type of the job has in addition to the type of the profile.
    pub published: Published,
    /// Whether no type of the module is refused.
    pub is_whole: bool,
}

/// The input of a job whose standard input is these octets. Where the text before the line ==== is a module of the
/// profile, it is used as it is. Else that text is read as published modules: the input is the text of the module
/// that they become, the line ====, and what follows it. Where they become none, or the module is to be printed and a
/// type is refused, the text is left as well, and `run` refuses it. Octets past ASCII in comments may be
/// of any code.
///
/// # Errors
/// `TooLarge` where it is a module of the profile larger than `MOST`; `Memory` where an allocation failed.
pub fn instead_of(
    alloc: Global,
    octets: &[u8],
    options: Options,
    job: &Job,
) -> Result<Instead, PublishedFault>
    // A module of the profile is read as it is, and nothing is told. It is no larger than it may be.
    ensures own { IfOk result (λ i. IsUtf8 (module_text octets.now) → IsOwn (module_text octets.now)
        → (i.octets ≡ None) × (string_bytes i.remarks ≡ []) × IsReadWithin (module_text octets.now)) }
    // What stands in its place is a module, no larger than it may be, and the same lines.
    ensures instead { IfOk result (λ i. IfSome i.octets (λ o. (rest : _)
        × (lines_of rest ≡ job_lines octets.now) × IsInput rest o.items)) }
{
    let (text, rest) = cut_input(octets);
    let Ok(text) = std::str::from_utf8(text) else {
        return passed_over(alloc, text, rest, options, job);
    };
    if let Some(_own) = own_of(alloc, text)? {
        let published = Published::of_own(alloc, text, job)?;
        return Ok(same(alloc, published)?);
    }
    published(alloc, text, rest, options, job)
}

/// The same where the octets before the line ==== are not UTF-8: those past ASCII in comments are passed over, and the
/// text is read as published modules. Where there are others, what was given is left as it is.
fn passed_over(
    alloc: Global,
    octets: &[u8],
    rest: &[u8],
    options: Options,
    job: &Job,
) -> Result<Instead, PublishedFault>
    ensures { IfOk result (λ i. IfSome i.octets (λ o. IsInput rest.now o.items)) }
{
    let mut all = Vec::new(alloc);
    all.extend_from_slice(octets)?;
    match text_of_octets(alloc, all) {
        Ok(text) => published(alloc, text.as_str(), rest, options, job),
        Err(_) => Ok(same(alloc, Published::free(alloc))?),
    }
}

/// The input of a job for the text before the line ====, read as published modules, and the remarks on its types.
fn published(
    alloc: Global,
    text: &str,
    rest: &[u8],
    options: Options,
    job: &Job,
) -> Result<Instead, PublishedFault>
    ensures { IfOk result (λ i. IfSome i.octets (λ o. IsInput rest.now o.items)) }
{
    match flattened_for(alloc, &[text], options, job) {
        Ok(flattened) => flattened_input(alloc, &[STDIN], flattened, rest, job),
        Err(fault) => Ok(Instead {
            octets: None,
            remarks: fault_line(alloc, fault)?,
            published: Published::free(alloc),
            is_whole: false,
        }),
    }
}

/// What published modules become for a job: its type alone, or all types where none has its name.
pub(crate) fn flattened_for(
    alloc: Global,
    texts: &[&str],
    options: Options,
    job: &Job,
) -> Result<Flattened, PublishedFault>
    ensures accepted { IfOk result (λ f. Accepted (string_bytes f.text) (types_view f.module)) }
    ensures within { IfOk result (λ f. IsNotLarge (types_view f.module)) }
{
    match job {
        Job::Module => flatten_within(alloc, texts, options, MOST),
        Job::Lines { type_name, .. } => {
            flatten_alone_within(alloc, texts, options, type_name.as_str(), MOST)
        }
    }
}

/// Nothing stands in the place of what was given, and nothing is told.
fn same(alloc: Global, published: Published) -> Result<Instead, AllocError>
    ensures { IfOk result (λ i. (i.octets ≡ None) × (string_bytes i.remarks ≡ [])) }
{
    Ok(Instead {
        octets: None,
        remarks: String::new(alloc),
        published,
        is_whole: true,
    })
}

/// The module of the profile that the text is, if it is one, which is no larger than `MOST`.
pub(crate) fn own_of(alloc: Global, text: &str) -> Result<Option<Module>, PublishedFault>
    ensures { IfOk result (λ m. MatchOption m (IsOwn text.now → ⊥) (λ m. IsRead text.now (types_view m))) }
{
    match read_within(alloc, text, MOST) {
        Ok(module) => Ok(Some(module)),
        Err(BoundFault::TooLarge { most, name }) => Err(PublishedFault::TooLarge { most, name }),
        Err(BoundFault::Module(fault)) => {
            unless_memory(&fault)?;
            Ok(None)
        }
    }
}

/// The module of the profile that these octets are the text of, if they are.
///
/// # Errors
/// `TooLarge` where it is larger than `MOST`; `Memory` where an allocation failed.
pub fn module_of(alloc: Global, text: &[u8]) -> Result<Option<Module>, PublishedFault>
    ensures { IfOk result (λ m. IfSome m (λ m. IsReadText text.now (types_view m))) }
{
    match std::str::from_utf8(text) {
        Ok(text) => own_of(alloc, text),
        Err(_) => Ok(None),
    }
}

/// Nothing, where a fault is another than want of memory.
fn unless_memory(fault: &ModuleFault) -> Result<(), AllocError>
    ensures { OnOk result (fault.now ≢ ModuleFault.Memory) }
{
    if let ModuleFault::Memory = fault {
        return Err(AllocError);
    }
    Ok(())
}

/// The line that tells why the text of standard input is no module.
///
/// # Errors
/// The fault itself where it is `TooLarge` or `Memory`, and `Memory` where an allocation failed here.
fn fault_line(alloc: Global, fault: PublishedFault) -> Result<String, PublishedFault> {
    match fault {
        PublishedFault::Text { line, wrong, .. } => {
            Ok(format!(in alloc; "{STDIN}:{line}: {wrong}\n")?)
        }
        PublishedFault::Unread(fault) => Ok(format!(in alloc; "not read: {fault}\n")?),
        fault => Err(fault),
    }
}

/// The input of a job whose module is in files: the text of the module, the line ====, and the octets of standard
/// input. The module is the one text, where that is a module of the profile, and else what the texts become as
/// published modules. There is no input where the job is to print the module, and a type is refused.
///
/// # Errors
/// Those of `flatten_within`; `TooLarge` where the one text is a module of the profile larger than `MOST`.
pub fn input_with(
    alloc: Global,
    files: &[&str],
    texts: &[&str],
    rest: &[u8],
    options: Options,
    job: &Job,
) -> Result<Instead, PublishedFault>
    ensures input { IfOk result (λ i. IfSome i.octets (λ o. IsInput rest.now o.items)) }
    // A module of the profile is read as it is, and nothing is told.
    ensures own { IfOk result (λ i. (text : _) → texts_of texts.now ≡ text ∷ [] → IsOwn text
        → IsSomeAnd i.octets (λ o. IsOwnInput text rest.now o.items) × (string_bytes i.remarks ≡ [])) }
{
    match own_among(alloc, texts)? {
        Some(own) => {
            let published = Published::of_own(alloc, own.text, job)?;
            Ok(own_input(alloc, own.text, &own.meant, rest, published)?)
        }
        None => published_input(alloc, files, texts, rest, options, job),
    }
}

/// A text that is a module of the profile, and that module.
#[derive(Drop)]
struct Own<'t> {
    text: &'t str,
    meant: Module,
}

/// The only text, with the module of the profile that it is, if there is one text and it is one, which is no larger
/// than `MOST`.
fn own_among<'t>(alloc: Global, texts: &[&'t str]) -> Result<Option<Own<'t>>, PublishedFault>
    ensures { IfOk result (λ own. MatchOption own
        ((text : _) → texts_of texts.now ≡ text ∷ [] → IsOwn text → ⊥)
        (λ own. (texts_of texts.now ≡ own.text.now ∷ []) × IsRead own.text.now (types_view own.meant))) }
{
    let [text] = texts else {
        return Ok(None);
    };
    match own_of(alloc, *text)? {
        Some(meant) => Ok(Some(Own { text: *text, meant })),
        None => Ok(None),
    }
}

/// The input of a job for these texts of published modules, and the remarks on its types.
fn published_input(
    alloc: Global,
    files: &[&str],
    texts: &[&str],
    rest: &[u8],
    options: Options,
    job: &Job,
) -> Result<Instead, PublishedFault>
    ensures { IfOk result (λ i. IfSome i.octets (λ o. IsInput rest.now o.items)) }
{
    let flattened = flattened_for(alloc, texts, options, job)?;
    flattened_input(alloc, files, flattened, rest, job)
}

/// The input of a job for published modules that were flattened, and the remarks on its types; `files` are the names of
/// the files of the texts. There is no input where the module is to be printed, and a type is refused.
fn flattened_input(
    alloc: Global,
    files: &[&str],
    flattened: Flattened,
    rest: &[u8],
    job: &Job,
) -> Result<Instead, PublishedFault>
    requires accepted { Accepted (string_bytes flattened.text) (types_view flattened.module) }
    requires within { IsNotLarge (types_view flattened.module) }
    ensures { IfOk result (λ i. IfSome i.octets (λ o. IsInput rest.now o.items)) }
{
    let remarks = remarks(alloc, files, &flattened, job)?;
    let is_whole = is_whole(flattened.report.as_slice());
    if matches!(job, Job::Module) && !is_whole {
        return Ok(Instead {
            octets: None,
            remarks,
            published: Published::free(alloc),
            is_whole,
        });
    }
    let octets = Some(input_of(alloc, flattened.text.as_str(), rest)?);
    Ok(Instead {
        octets,
        remarks,
        published: Published::of_flattened(alloc, flattened, job)?,
        is_whole,
    })
}

/// Whether a text can stand in front of the line ==== as it is: it ends a line, and has no such line.
fn is_head(text: &str) -> bool {
    text.ends_with("\n") && text.split('\n').all(|line| *line != *"====")
}

/// The input of a job for a text that is a module of the profile. The text is printed only where it cannot stand there
/// as it is, since references are written out in what is printed.
fn own_input(
    alloc: Global,
    text: &str,
    own: &Module,
    rest: &[u8],
    published: Published,
) -> Result<Instead, AllocError>
    requires { Accepted text.now (types_view own.now) }
    ensures { IfOk result (λ i. IsSomeAnd i.octets (λ o. IsInputOf (types_view own.now) rest.now o.items)
        × (string_bytes i.remarks ≡ [])) }
{
    let octets = if is_head(text) {
        input_of(alloc, text, rest)?
    } else {
        input_of(alloc, own.print(alloc)?.as_str(), rest)?
    };
    Ok(Instead {
        octets: Some(octets),
        remarks: String::new(alloc),
        published,
        is_whole: true,
    })
}

/// Whether no type is refused.
fn is_whole(report: &[TypeReport]) -> bool {
    report.iter().all(|one| one.status != Status::Refused)
}

/// A line for each import of a module that is not given, and for each remark on the types that the job needs, `files`
/// being the names of the files of the texts.
fn remarks(
    alloc: Global,
    files: &[&str],
    flattened: &Flattened,
    job: &Job,
) -> Result<String, AllocError> {
    let mut remarks = missing_text(alloc, files, flattened.missing.as_slice())?;
    let of_types = remarks_on_types(alloc, files, flattened.report.as_slice(), job)?;
    remarks.push_str(of_types.as_str())?;
    Ok(remarks)
}

/// A line for each remark on the types that the job needs, `files` being the names of the files of the texts; for each
/// type that is refused, where the job is on no type.
fn remarks_on_types(
    alloc: Global,
    files: &[&str],
    report: &[TypeReport],
    job: &Job,
) -> Result<String, AllocError> {
    match job {
        Job::Module => report_text(alloc, files, report),
        Job::Lines { type_name, .. } if type_name.is_empty() => refused_text(alloc, files, report),
        Job::Lines { type_name, .. } => way_text(alloc, files, report, type_name.as_str()),
    }
}

/// The input of a job: the text of the module, the line ====, and the octets after it.
fn input_of(alloc: Global, text: &str, rest: &[u8]) -> Result<Vec<u8>, AllocError>
    ensures { IfOk result (λ o. o.items ≡ text.now ++ mark ++ rest.now) }
{
    let mut octets = Vec::new(alloc);
    octets.extend_from_slice(text.as_bytes())?;
    octets.extend_from_slice(b"====\n".as_slice())?;
    octets.extend_from_slice(rest)?;
    Ok(octets)
}
