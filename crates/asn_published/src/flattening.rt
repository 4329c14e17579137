//! From published texts to one module of the profile.
ghost use Rattle.std.specs.Prelude.{◌≡◌, ◌≤◌, length, IfErr, IfOk, option_map, string_bytes};
ghost use Rattle.asn_module.specs.Accepted.{Accepted};
ghost use Rattle.asn_module.specs.ModuleView.{types_view};
ghost use Rattle.asn_module.specs.Sizes.{types_size};
ghost use Rattle.asn_published_report.specs.Parts.{status_at, type_named};
ghost use Rattle.asn_published.specs.TextFaults.{IsOneOf};

use crate::fault::PublishedFault;
use crate::gathering::{Extent, sources_of};
use crate::marks::Marks;
use crate::refusing::{refuse, refuse_large};
use crate::reports::{Reported, reports_of};
use asn_constraints::Constraint;
use asn_contents::Contents;
use asn_module::{MOST_SIZE, Module, read_within};
use asn_published_report::missing::{MissingImport, missing_imports};
use asn_published_report::way::status_named;
use asn_published_text::options::Options;
use asn_published_types::pieces::push_pieces;
use asn_published_types::report::{Status, TypeReport};
use asn_published_types::steps::Marked;
use asn_published_types::tree::{constraint_at, contents_at};
use asn_published_write::sources::Sources;
use asn_published_write::wanted::{Wanted, write_all};
use asn_published_write::written::{Written, whole_level};
use std::alloc::{AllocError, Global};

/// How often types are written again without one that the profile does not take.
const MOST_TRIES: u32 = 64;

/// A module of the profile, its text as it is printed, what became of each type of the published ones, in their order,
/// and the modules that these import from and that are not given.
#[derive(Drop)]
pub struct Flattened {
    pub text: String,
    pub module: Module,
    pub report: Vec<TypeReport>,
    pub missing: Vec<MissingImport>,
    /// The nodes of the types that are written, and of each type of the report which of these it is.
    pub(crate) marked: Vec<Marked>,
    pub(crate) places: Vec<usize>,
    /// Of each type of the texts its index in the report.
    pub(crate) in_report: Vec<Option<usize>>,
    /// How many levels a recursive type has.
    pub(crate) levels: u32,
}

impl Flattened {
    /// What became of the type of a name, which is that in the module; `None` where there is none.
    pub fn status_named(&self, name: &str) -> Option<Status>
        ensures { result ≡ option_map (λ i. status_at self.now.report.items i)
            (type_named self.now.report.items name.now) }
    {
        status_named(self.report.as_slice(), name)
    }

    /// Which values of the type of a name the published type has, as far as no encoding shows it; `Free` where it has each,
    /// or there is no such type.
    ///
    /// # Errors
    /// `AllocError` where an allocation failed.
    pub fn constraint_of(&self, alloc: Global, name: &str) -> Result<Constraint, AllocError> {
        let found = self
            .report
            .iter()
            .position(|one| *one.name.as_str() == *name);
        let Some(at) = found else {
            return Ok(Constraint::Free);
        };
        match self.places.get(at) {
            Some(place) => constraint_at(alloc, self.marked.as_slice(), *place),
            None => Ok(Constraint::Free),
        }
    }

    /// The same of the type at an index of the report.
    ///
    /// # Errors
    /// `AllocError` where an allocation failed.
    pub fn constraint_at(&self, alloc: Global, index: usize) -> Result<Constraint, AllocError> {
        match self.places.get(index) {
            Some(place) => constraint_at(alloc, self.marked.as_slice(), *place),
            None => Ok(Constraint::Free),
        }
    }

    /// Which octets of the values of the type of a name are encodings (X.682, "contents constraint"), by the index of their type
    /// in the report; `Nowhere` where none are, or there is no such type.
    ///
    /// # Errors
    /// `AllocError` where an allocation failed.
    pub fn contents_of(&self, alloc: Global, name: &str) -> Result<Contents, AllocError> {
        let found = self
            .report
            .iter()
            .position(|one| *one.name.as_str() == *name);
        match found {
            Some(at) => self.contents_at(alloc, at),
            None => Ok(Contents::Nowhere),
        }
    }

    /// The same of the type at an index of the report.
    ///
    /// # Errors
    /// `AllocError` where an allocation failed.
    pub fn contents_at(&self, alloc: Global, index: usize) -> Result<Contents, AllocError> {
        match self.places.get(index) {
            Some(place) => contents_at(
                alloc,
                self.marked.as_slice(),
                *place,
                self.in_report.as_slice(),
            ),
            None => Ok(Contents::Nowhere),
        }
    }

    /// The marks of the type of a name; `None` where nothing of its values is to be said, or there is no such type.
    pub fn into_marks(self, name: &str) -> Option<Marks> {
        let Flattened {
            report,
            marked,
            places,
            levels,
            ..
        } = self;
        let at = report.iter().position(|one| *one.name.as_str() == *name)?;
        let place = places.get(at)?;
        Marks::of(marked, *place, levels)
    }
}

/// Appends a line for each type that is written.
fn push_assignments(
    text: &mut String,
    names: &[String],
    lines: &[Option<String>],
) -> Result<(), AllocError> {
    for (name, line) in names.iter().zip(lines) {
        if let Some(line) = line {
            push_pieces(text, &[name.as_str(), " ::=", line.as_str(), "\n"])?;
        }
    }
    Ok(())
}

/// The first line of the text of the module.
pub(crate) fn first_line(alloc: Global, sources: &Sources<'_>) -> Result<String, AllocError> {
    let name = match sources.world.modules.first() {
        Some(module) => module.name,
        None => "Empty",
    };
    let mut text = String::new(alloc);
    push_pieces(
        &mut text,
        &[name, " DEFINITIONS AUTOMATIC TAGS ::= BEGIN\n"],
    )?;
    Ok(text)
}

/// The text of the module of the types that are written: of the one that is wanted alone, if one is, and those that octets
/// contain then.
fn text_written(
    alloc: Global,
    sources: &Sources<'_>,
    written: &Written,
) -> Result<String, AllocError> {
    let mut text = first_line(alloc, sources)?;
    for one in &written.alone {
        if let Some(name) = sources.names.get(one.entry) {
            push_pieces(&mut text, &[name.as_str(), " ::=", one.text.as_str(), "\n"])?;
        }
    }
    if written.alone.is_empty() {
        for line in &written.levels {
            text.push_str(line.as_str())?;
        }
        push_assignments(
            &mut text,
            sources.names.as_slice(),
            written.lines.as_slice(),
        )?;
    }
    text.push_str("END\n")?;
    Ok(text)
}

/// The module that a text is, which is no larger than the bound, and its text as it is printed.
fn read_back(alloc: Global, text: &str, most: u32) -> Result<(String, Module), PublishedFault>
    ensures fault { IfErr result (IsOneOf 0) }
    ensures accepted { IfOk result (λ r. Accepted (string_bytes r.0) (types_view r.1)) }
    ensures within { IfOk result (λ r. types_size (types_view r.1).types ≤ most) }
{
    let module = read_within(alloc, text, most)?;
    let printed = module.print(alloc)?;
    Ok((printed, module))
}

/// Writes all types but those that are refused, or the one that is wanted alone, and reads them back, as a module that is
/// no larger than the bound.
fn attempt(
    alloc: Global,
    sources: &Sources<'_>,
    options: Options,
    refused: &[bool],
    wanted: Option<Wanted>,
    most: u32,
) -> Result<Flattened, PublishedFault>
    ensures fault { IfErr result (IsOneOf 0) }
    ensures accepted { IfOk result (λ f. Accepted (string_bytes f.text) (types_view f.module)) }
    ensures within { IfOk result (λ f. types_size (types_view f.module).types ≤ most) }
{
    let written = write_all(alloc, sources, options, refused, wanted)?;
    let text = text_written(alloc, sources, &written)?;
    let (text, module) = read_back(alloc, text.as_str(), most)?;
    let Reported {
        report,
        marked,
        places,
        in_report,
    } = reports_of(alloc, written)?;
    Ok(Flattened {
        text,
        module,
        report,
        missing: missing_imports(alloc, &sources.world)?,
        marked,
        places,
        in_report,
        levels: whole_level(options),
    })
}

/// One module of the profile from the texts of published ones (X.680 to X.683), and what became of each type.
///
/// The module has the name of the first one, and a type for each type assignment that is not refused. It is read by
/// `asn_module::read`.
///
/// # Errors
/// `Text` where a text is none of the notation, with the text's index from 0 and the line from 1. `Unread` where the
/// profile does not take what was written, with the fault that `asn_module` reports. `Memory` where an allocation
/// failed.
pub fn flatten(alloc: Global, texts: &[&str], options: Options) -> Result<Flattened, PublishedFault>
    // A fault of a text is that of one of the texts.
    ensures fault { IfErr result (IsOneOf (length texts.now)) }
    // The text is one that `asn_module` accepts, as the module that is beside it.
    ensures accepted { IfOk result (λ f. Accepted (string_bytes f.text) (types_view f.module)) }
{
    flatten_at_most(alloc, texts, options, Extent::All, MOST_SIZE)
}

/// What `flatten` answers, of a module that is no larger than `most`, as `asn_module::read_within` counts it. Where the
/// types come to more, the largest are refused, and the report says so.
///
/// # Errors
/// Those of `flatten`.
pub fn flatten_within(
    alloc: Global,
    texts: &[&str],
    options: Options,
    most: u32,
) -> Result<Flattened, PublishedFault>
    ensures fault { IfErr result (IsOneOf (length texts.now)) }
    ensures accepted { IfOk result (λ f. Accepted (string_bytes f.text) (types_view f.module)) }
    ensures within { IfOk result (λ f. types_size (types_view f.module).types ≤ most) }
{
    flatten_at_most(alloc, texts, options, Extent::All, most)
}

/// What `flatten_within` answers, of the types to which the type of a name leads, itself one of them; of all
/// types, where none has the name. The name is that in the module of the profile. Where these types come to more than
/// `most`, and it to no more than half of that, the module is that of `flatten_alone_within`.
///
/// # Errors
/// Those of `flatten_within`.
pub fn flatten_type_within(
    alloc: Global,
    texts: &[&str],
    options: Options,
    name: &str,
    most: u32,
) -> Result<Flattened, PublishedFault>
    ensures fault { IfErr result (IsOneOf (length texts.now)) }
    ensures accepted { IfOk result (λ f. Accepted (string_bytes f.text) (types_view f.module)) }
    ensures within { IfOk result (λ f. types_size (types_view f.module).types ≤ most) }
{
    flatten_at_most(alloc, texts, options, Extent::Led(name), most)
}

/// The same, but the module has the type of the name alone, with those that it leads to written out in it. The report
/// has them too. Where the type is refused, or larger than half of `most`, the answer is that of `flatten_type_within`.
///
/// # Errors
/// Those of `flatten_within`.
pub fn flatten_alone_within(
    alloc: Global,
    texts: &[&str],
    options: Options,
    name: &str,
    most: u32,
) -> Result<Flattened, PublishedFault>
    ensures fault { IfErr result (IsOneOf (length texts.now)) }
    ensures accepted { IfOk result (λ f. Accepted (string_bytes f.text) (types_view f.module)) }
    ensures within { IfOk result (λ f. types_size (types_view f.module).types ≤ most) }
{
    flatten_at_most(alloc, texts, options, Extent::Alone(name), most)
}

/// The module of these types, which is no larger than the bound.
#[tactic(auto, using(crate::proofs::TextFaults::of_no_text))]
fn flatten_at_most(
    alloc: Global,
    texts: &[&str],
    options: Options,
    extent: Extent<'_>,
    most: u32,
) -> Result<Flattened, PublishedFault>
    ensures fault { IfErr result (IsOneOf (length texts.now)) }
    ensures accepted { IfOk result (λ f. Accepted (string_bytes f.text) (types_view f.module)) }
    ensures within { IfOk result (λ f. types_size (types_view f.module).types ≤ most) }
{
    let (sources, wanted) = sources_of(alloc, texts, extent, most)?;
    attempts(alloc, &sources, options, wanted, most)
}

/// The module of these types. Where the profile does not take the one that is wanted, it is written again with those that it
/// leads to, to find the one that is not taken.
fn attempts(
    alloc: Global,
    sources: &Sources<'_>,
    options: Options,
    wanted: Option<Wanted>,
    most: u32,
) -> Result<Flattened, PublishedFault>
    ensures fault { IfErr result (IsOneOf 0) }
    ensures accepted { IfOk result (λ f. Accepted (string_bytes f.text) (types_view f.module)) }
    ensures within { IfOk result (λ f. types_size (types_view f.module).types ≤ most) }
{
    let mut refused = vec![in alloc; false; sources.names.len()]?;
    if wanted.is_some() {
        match attempt(alloc, sources, options, refused.as_slice(), wanted, most) {
            Err(PublishedFault::Unread(_) | PublishedFault::TooLarge { .. }) => {}
            answer => return answer,
        }
    }
    for _ in 1..MOST_TRIES {
        match attempt(alloc, sources, options, refused.as_slice(), None, most) {
            Err(PublishedFault::Unread(fault)) => {
                refuse(alloc, sources, options, &mut refused, fault)?;
            }
            Err(PublishedFault::TooLarge { most, name }) => {
                refuse_large(sources, &mut refused, most, name)?;
            }
            answer => return answer,
        }
    }
    attempt(alloc, sources, options, refused.as_slice(), None, most)
}
