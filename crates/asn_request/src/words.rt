//! The subcommands, as `clap` knows them.
ghost use Rattle.std.specs.Prelude.{◌≡◌, IfOk, codes, false, true};
ghost use Rattle.clap.specs.Words.{app_of, rule_of, shape_of};
ghost use Rattle.clap.specs.declared.builder.Command.TheViews.{out-Command};
ghost use Rattle.asn_request.specs.Command.{IsFields, IsFlatten, IsOrder, IsOrderApp, TakesNames, example_shape, file_rule, module_shape, name_rule, names_rule, number_rule, option_rule, report_names, types_shape};

use crate::help;
use crate::options::{
    flag, number_option, rules_option, type_option, with_answers, with_forms, with_leave,
    with_messages, with_source,
};
use clap::{Arg, ArgAction, Command};
use std::alloc::{AllocError, Global};

/// The ways to tell what became of the types.
static REPORTS: [&str; 3] = ["summary", "text", "json"];

/// The subcommand that flattens published modules.
pub fn flatten<'a>(alloc: Global) -> Result<Command<'a>, AllocError>
    ensures shape { IfOk result (λ c. IsFlatten (shape_of c)) }
    ensures local { IfOk result (λ c. (out-Command c).has_globals ≡ false) }
{
    let command = Command::new(alloc, "flatten")
        .about("Writes published modules as one module")
        .after_help(help::FLATTEN)
        .arg(file_argument(alloc))?
        .arg(report_option(alloc))?
        .arg(one_type_option(alloc))?;
    with_leave(alloc, command)
}

/// The files of the published modules.
fn file_argument<'a>(alloc: Global) -> Arg<'a>
    ensures rule { rule_of result ≡ file_rule }
    ensures local { result.global ≡ false }
{
    Arg::new(alloc, "file")
        .value_name("FILE")
        .required(true)
        .num_args(1..)
        .action(ArgAction::Append)
        .help("The files of the modules")
}

/// The option for the one type that is written, with those that it leads to.
fn one_type_option<'a>(alloc: Global) -> Arg<'a>
    ensures rule { rule_of result ≡ option_rule (codes "type") }
    ensures local { result.global ≡ false }
{
    Arg::new(alloc, "type")
        .long("type")
        .value_name("NAME")
        .action(ArgAction::Set)
        .help("Writes only this type and those that it refers to")
}

/// The option for the form of the report.
fn report_option<'a>(alloc: Global) -> Arg<'a>
    ensures rule { (p : _) × TakesNames report_names p × (rule_of result ≡ names_rule (codes "report") p) }
    ensures local { result.global ≡ false }
{
    Arg::new(alloc, "report")
        .long("report")
        .value_name("FORM")
        .action(ArgAction::Set)
        .value_parser(REPORTS.as_slice())
        .help("The form of the report on standard error\n[default: summary]")
}

/// The subcommand of the module.
pub fn module<'a>(alloc: Global) -> Result<Command<'a>, AllocError>
    ensures shape { IfOk result (λ c. shape_of c ≡ module_shape) }
    ensures local { IfOk result (λ c. (out-Command c).has_globals ≡ false) }
{
    let command = Command::new(alloc, "module")
        .about("Prints the module, with references followed")
        .after_help(help::MODULE);
    let command = with_source(alloc, command)?;
    with_leave(alloc, command)
}

/// The subcommand that shows messages field by field.
pub fn fields<'a>(alloc: Global) -> Result<Command<'a>, AllocError>
    ensures shape { IfOk result (λ c. IsFields (shape_of c)) }
    ensures local { IfOk result (λ c. (out-Command c).has_globals ≡ false) }
{
    let html = flag(
        alloc,
        "html",
        "Prints one page of HTML, with the bits in colours",
    );
    let command = Command::new(alloc, "fields")
        .about("Shows messages field by field")
        .after_help(help::FIELDS)
        .arg(type_option(alloc))?
        .arg(rules_option(alloc))?;
    let command = with_source(alloc, command)?;
    let budget = budget_option(alloc, "The most fields of a message [default: 100000]");
    let command = with_messages(alloc, command, "fields")?
        .arg(html)?
        .arg(budget)?;
    with_leave(alloc, command)
}

/// The subcommand that shows types.
pub fn types<'a>(alloc: Global) -> Result<Command<'a>, AllocError>
    ensures shape { IfOk result (λ c. shape_of c ≡ types_shape) }
    ensures local { IfOk result (λ c. (out-Command c).has_globals ≡ false) }
{
    let command = Command::new(alloc, "types")
        .about("Shows the names of the types, or the parts of one type")
        .after_help(help::TYPES)
        .arg(name_argument(alloc))?;
    let command = with_source(alloc, command)?;
    with_leave(alloc, command)
}

/// The name of a type, which may be left out.
fn name_argument<'a>(alloc: Global) -> Arg<'a>
    ensures rule { rule_of result ≡ name_rule }
    ensures local { result.global ≡ false }
{
    Arg::new(alloc, "name")
        .value_name("NAME")
        .action(ArgAction::Set)
        .help("The type, by its name in the module")
}

/// The subcommand that gives values of a type.
pub fn example<'a>(alloc: Global) -> Result<Command<'a>, AllocError>
    ensures shape { IfOk result (λ c. shape_of c ≡ example_shape) }
    ensures local { IfOk result (λ c. (out-Command c).has_globals ≡ false) }
{
    let seed = number_option(
        alloc,
        "seed",
        "Prints the value that N determines; 0: the greatest\n[default: the least value]",
    );
    let count = number_option(
        alloc,
        "count",
        "Prints N values, of one seed after the other\n[default: 1]",
    );
    let budget = budget_option(
        alloc,
        "The most parts and items of strings of a value\n[default: 1000000]",
    );
    let command = Command::new(alloc, "example")
        .about("Prints values of a type as JSON")
        .after_help(help::EXAMPLE)
        .arg(type_option(alloc))?
        .arg(seed)?
        .arg(count)?
        .arg(budget)?;
    let command = with_source(alloc, command)?;
    with_leave(alloc, command)
}

/// The option for what a value may take, or a message.
fn budget_option<'a>(alloc: Global, help: &'a str) -> Arg<'a>
    ensures rule { rule_of result ≡ number_rule (codes "budget") }
    ensures local { result.global ≡ false }
{
    number_option(alloc, "budget", help)
}

/// The subcommand of an order whose values may take no more than is said.
pub fn reading<'a>(
    alloc: Global,
    name: &'a str,
    about: &'a str,
    help: &'a str,
) -> Result<Command<'a>, AllocError>
    ensures shape { IfOk result (λ c. IsOrder (name.entry.now, true) (shape_of c)) }
    ensures local { IfOk result (λ c. (out-Command c).has_globals ≡ false) }
{
    let budget = budget_option(
        alloc,
        "Refuses a value of more than N entries, or N octets\nof strings",
    );
    order(alloc, name, about, help)?.arg(budget)
}

/// The subcommand of an order. The type and the encoding rules are required.
pub fn order<'a>(
    alloc: Global,
    name: &'a str,
    about: &'a str,
    help: &'a str,
) -> Result<Command<'a>, AllocError>
    ensures app { IfOk result (λ c. IsOrderApp name.entry.now (app_of c)) }
    ensures local { IfOk result (λ c. (out-Command c).has_globals ≡ false) }
{
    let command = Command::new(alloc, name)
        .about(about)
        .after_help(help)
        .arg(type_option(alloc))?
        .arg(rules_option(alloc))?;
    let command = with_source(alloc, command)?;
    let command = with_forms(alloc, command, name)?;
    let command = with_answers(alloc, command, name)?;
    with_leave(alloc, command)
}
