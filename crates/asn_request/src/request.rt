//! From the words of a command line to what they ask for.
ghost use Rattle.std.specs.Prelude.{◌≡◌, ◌≢◌, IfOk, IfErr, MatchOption, codes, map};
ghost use Rattle.clap.specs.Words.{Text, found_of, kind_of, rows_of, subcommand_rows_of};
ghost use Rattle.asn_jobs.specs.declared.job.Order.{Order};
ghost use Rattle.asn_request.specs.declared.request.LineFault.{LineFault};
ghost use Rattle.asn_request.specs.Command.{HasOptions, IsTaken};
ghost use Rattle.asn_request.specs.Request.{AreForms, AreOptions, AreVersions, Asks, HasRequest, IsAsking, IsJobOf, IsLayout, IsNumberOf, IsRequestOf, Told, fault_by, files_of, form_in, form_of, is_declared_in, is_order_named_in, octet_form_in, octet_form_of, look_name, order_name, texts_of};

use crate::asking::{Asking, Forms, Versions};
use crate::look::{Look, Looking, look_of, looking_named, rules_of, text_in};
use crate::program::command;
use asn_jobs::{Job, OctetForm, Order};
use asn_json_layout::Layout;
use asn_published_text::options::Options;
use clap::ArgMatches;
use clap::error::ErrorKind;
use std::alloc::{AllocError, Global};
use thiserror::Error;

/// What the program is asked for.
#[derive(Drop)]
pub enum Request<'a> {
    /// Published modules are flattened.
    Flatten {
        /// Where their texts are.
        files: Vec<&'a str>,
        /// The one type that is written, with those that it leads to; all where none is named.
        type_name: Option<String>,
        /// What becomes of types that the profile does not have as they are.
        options: Options,
        /// How it is told what became of the types.
        form: Form,
    },
    /// A job is done.
    Run {
        job: Job,
        /// Where the texts of the module are; none where it stands on standard input.
        files: Vec<&'a str>,
        /// What becomes of published types that the profile does not have as they are.
        options: Options,
        /// What is asked for of the messages.
        asking: Asking<'a>,
    },
    /// Something is shown.
    Look {
        look: Look,
        /// Where the texts of the module are; none where it stands on standard input.
        files: Vec<&'a str>,
        /// What becomes of published types that the profile does not have as they are.
        options: Options,
        /// What is asked for of the messages.
        asking: Asking<'a>,
    },
}

/// How the report on the types of published modules is written.
#[derive(Clone, Copy)]
pub enum Form {
    /// A line for each status: how many types have it.
    Summary,
    /// A line for each remark.
    Text,
    /// A line of JSON for each type.
    Json,
}

/// Why words are no request.
#[derive(Debug, Drop, Error)]
pub enum LineFault {
    /// The command does not take the words, or they ask for help or the version. (Fault 1.)
    #[error("{0}")]
    Line(clap::Error),
    /// An allocation failed. (Fault 2.)
    #[error("memory")]
    Memory,
}

/// What the words ask for, which are those after the program's name: that of the subcommand, of its files and of the
/// values of its options that `clap` finds in them.
///
/// # Errors
/// `Line` exactly where the command does not take the words, or where they ask for help or the version, which is the
/// text of the error then. The command does not take a missing or unknown subcommand or option, an option without a
/// value or twice, rules of another name than `per`, `oer`, `uper` and `coer`, or levels that are no number. `Memory`
/// where an allocation failed.
pub fn request_of<'a>(alloc: Global, words: &'a [&'a str]) -> Result<Request<'a>, LineFault>
    ensures request { IfOk result (λ asked. Asks (map (λ w. w.now) words.entry.now) asked) }
    ensures fault { IfErr result (λ fault. Told (map (λ w. w.now) words.entry.now) fault) }
{
    let command = command(alloc)?;
    let matches = command.try_get_matches_from(words)?;
    Ok(request_in(alloc, &matches)?)
}

/// What the subcommand that was met asks for. `Err` comes where there is no memory for the files or the type's name.
fn request_in<'a>(alloc: Global, matches: &ArgMatches<'a>) -> Result<Request<'a>, AllocError>
    requires { IsTaken (subcommand_rows_of matches.now) }
    ensures { IfOk result (λ asked. HasRequest (subcommand_rows_of matches.now) asked) }
{
    let Some((name, options)) = matches.subcommand() else {
        unreachable!()
    };
    if name == "flatten" {
        return flatten_in(alloc, options);
    }
    if name == "module" {
        return run_in(alloc, options, Job::Module);
    }
    if let Some(what) = looking_named(name) {
        return look_in(alloc, options, what);
    }
    let job = lines_in(alloc, name, options)?;
    run_in(alloc, options, job)
}

/// Published modules are flattened, by these options of the subcommand.
fn flatten_in<'a>(alloc: Global, options: &ArgMatches<'a>) -> Result<Request<'a>, AllocError>
    ensures { IfOk result (λ asked. IsRequestOf (codes "flatten", rows_of (found_of options.now)) asked) }
{
    Ok(Request::Flatten {
        files: files_in(alloc, options, "file")?,
        type_name: text_in(alloc, options, "type")?,
        options: options_in(options),
        form: form_in(options),
    })
}

/// The job is done, by these options of the subcommand.
fn run_in<'a>(alloc: Global, options: &ArgMatches<'a>, job: Job) -> Result<Request<'a>, AllocError>
    ensures { IfOk result (λ asked. (name : Text) → IsJobOf (name, rows_of (found_of options.now)) job
        → IsRequestOf (name, rows_of (found_of options.now)) asked) }
{
    Ok(Request::Run {
        job,
        files: files_in(alloc, options, "module")?,
        options: options_in(options),
        asking: asking_in(alloc, options)?,
    })
}

/// Something is shown, by these options of the subcommand.
fn look_in<'a>(
    alloc: Global,
    options: &ArgMatches<'a>,
    what: Looking,
) -> Result<Request<'a>, AllocError>
    ensures { IfOk result (λ asked. IsRequestOf (look_name what, rows_of (found_of options.now)) asked) }
{
    Ok(Request::Look {
        look: look_of(alloc, options, what)?,
        files: files_in(alloc, options, "module")?,
        options: options_in(options),
        asking: asking_in(alloc, options)?,
    })
}

/// The job over lines of the subcommand of this name, by its options.
fn lines_in(alloc: Global, name: &str, options: &ArgMatches<'_>) -> Result<Job, AllocError>
    requires { HasOptions (name.now, rows_of (found_of options.now)) }
    ensures { IfOk result (λ job. IsJobOf (name.now, rows_of (found_of options.now)) job) }
{
    let Some(order) = order_named(name) else {
        unreachable!()
    };
    let Some(type_name) = options.get_str("type") else {
        unreachable!()
    };
    let Some(rules) = options.get_str("rules") else {
        unreachable!()
    };
    let rules = rules_of(rules);
    let type_name = String::from_str(alloc, type_name)?;
    Ok(Job::Lines {
        order,
        type_name,
        rules,
    })
}

/// The values of the argument of this id, and none where it was not used.
fn files_in<'a>(
    alloc: Global,
    options: &ArgMatches<'a>,
    id: &str,
) -> Result<Vec<&'a str>, AllocError>
    ensures { IfOk result (λ files. texts_of files.items ≡ files_of id.now (rows_of (found_of options.now))) }
{
    let mut files = Vec::new(alloc);
    match options.get_raw(id) {
        Some(given) => {
            files.extend_from_slice(given)?;
            Ok(files)
        }
        None => Ok(files),
    }
}

/// What becomes of types that the profile does not have as they are.
fn options_in(options: &ArgMatches<'_>) -> Options
    ensures { AreOptions (rows_of (found_of options.now)) result }
{
    Options {
        plain_bits: options.get_flag("plain-bits"),
        octets: options.get_flag("octets"),
        levels: options.get_one("levels").unwrap_or(0),
        strict: options.get_flag("strict"),
    }
}

/// What is asked for of the messages.
fn asking_in<'a>(alloc: Global, options: &ArgMatches<'a>) -> Result<Asking<'a>, AllocError>
    ensures { IfOk result (λ asking. IsAsking (rows_of (found_of options.now)) asking) }
{
    Ok(Asking {
        is_explained: options.get_flag("explain"),
        messages: files_in(alloc, options, "messages")?,
        forms: forms_in(options),
        layout: layout_in(options),
        is_order_named: is_order_named_in(options),
        versions: versions_in(options),
        is_counted: options.get_flag("stats"),
        budget: budget_in(options),
        is_wider_taken: options.get_flag("accept-wider"),
    })
}

/// What the value of a message may take, if there is a bound. A subcommand without `--budget` has none.
fn budget_in(options: &ArgMatches<'_>) -> Option<u32>
    ensures { IsNumberOf (codes "budget") (rows_of (found_of options.now)) result }
{
    options.get_one("budget")
}

/// The forms of the octets of messages.
fn forms_in(options: &ArgMatches<'_>) -> Forms
    ensures { AreForms (rows_of (found_of options.now)) result }
{
    Forms {
        given: octet_form_in(options, "in"),
        written: octet_form_in(options, "out"),
        is_split: options.get_flag("split"),
    }
}

/// The form of octets that the option of this id names, if it was used.
fn octet_form_in(options: &ArgMatches<'_>, id: &str) -> Option<OctetForm>
    ensures { result ≡ octet_form_in id.now (rows_of (found_of options.now)) }
{
    match options.get_str(id) {
        Some(name) => Some(octet_form_named(name)),
        None => None,
    }
}

/// The form of octets of this name.
fn octet_form_named(name: &str) -> OctetForm
    ensures { result ≡ octet_form_of name.now }
{
    match name {
        "hex-block" => OctetForm::HexBlock,
        "dump" => OctetForm::Dump,
        "base64" => OctetForm::Base64,
        "binary" => OctetForm::Binary,
        _ => OctetForm::Hex,
    }
}

/// The layout of JSON.
fn layout_in(options: &ArgMatches<'_>) -> Layout
    ensures { IsLayout (rows_of (found_of options.now)) result }
{
    Layout {
        is_declared: is_declared_in(options),
        is_pretty: options.get_flag("pretty"),
    }
}

/// What is asked for of messages of other versions of a type.
fn versions_in(options: &ArgMatches<'_>) -> Versions
    ensures { AreVersions (rows_of (found_of options.now)) result }
{
    Versions {
        is_json: options.get_flag("json"),
        is_taken_back: options.get_flag("newer"),
    }
}

/// Whether members are to stand in the order of the type: not where it is not said.
fn is_declared_in(options: &ArgMatches<'_>) -> bool
    ensures { result ≡ is_declared_in (rows_of (found_of options.now)) }
{
    match options.get_str("order") {
        Some(name) => name == "declared",
        None => false,
    }
}

/// Whether an order of members is named.
fn is_order_named_in(options: &ArgMatches<'_>) -> bool
    ensures { result ≡ is_order_named_in (rows_of (found_of options.now)) }
{
    options.get_str("order").is_some()
}

/// How it is told what became of the types: a summary where it is not said.
fn form_in(options: &ArgMatches<'_>) -> Form
    ensures { result ≡ form_in (rows_of (found_of options.now)) }
{
    match options.get_str("report") {
        Some(name) => form_named(name),
        None => Form::Summary,
    }
}

/// The form of this name.
fn form_named(name: &str) -> Form
    ensures { result ≡ form_of name.now }
{
    match name {
        "text" => Form::Text,
        "json" => Form::Json,
        _ => Form::Summary,
    }
}

/// The order of this name.
fn order_named(name: &str) -> Option<Order>
    ensures { MatchOption result
        ((order : Order) → order_name order ≢ name.now) (λ order. order_name order ≡ name.now) }
{
    match name {
        "show" => Some(Order::Show),
        "check" => Some(Order::Check),
        "encode" => Some(Order::Encode),
        "convert" => Some(Order::Convert),
        "newer" => Some(Order::Newer),
        _ => None,
    }
}

impl From<clap::Error> for LineFault {
    ghost from_gives = { λ error fault. fault ≡ fault_by error };

    fn from(error: clap::Error) -> LineFault {
        if error.kind() == ErrorKind::OutOfMemory {
            LineFault::Memory
        } else {
            LineFault::Line(error)
        }
    }
}

impl From<AllocError> for LineFault {
    ghost from_gives = { λ _ fault. fault ≡ LineFault.Memory };

    fn from(_: AllocError) -> LineFault {
        LineFault::Memory
    }
}
