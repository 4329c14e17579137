//! The options of the subcommands, as `clap` knows them.
ghost use Rattle.std.specs.Prelude.{◌≡◌, IfOk, codes, false, true};
ghost use Rattle.clap.specs.Words.{app_of, rule_of};
ghost use Rattle.clap.specs.declared.builder.Command.TheViews.{out-Command};
ghost use Rattle.asn_request.specs.Command.{TakesNames, answer_rules, files_rule, flag_rule, form_rules, given_names, leave_rules, member_names, message_rules, names_rule, number_rule, rule_names, rules_rule, source_rules, type_rule, version_rules, with_rules, written_names};

use clap::{Arg, ArgAction, Command, value_parser};
use std::alloc::{AllocError, Global};

/// The names of the encoding rules.
static RULES: [&str; 4] = ["per", "oer", "uper", "coer"];

/// The forms of octets that are given.
static GIVEN: [&str; 5] = ["hex", "hex-block", "dump", "base64", "binary"];

/// The forms of octets that are written.
static WRITTEN: [&str; 3] = ["hex", "base64", "binary"];

/// The orders of the members of JSON.
static MEMBERS: [&str; 2] = ["name", "declared"];

/// The option for the name of the type.
pub fn type_option<'a>(alloc: Global) -> Arg<'a>
    ensures rule { rule_of result ≡ type_rule }
    ensures local { result.global ≡ false }
{
    Arg::new(alloc, "type")
        .long("type")
        .value_name("NAME")
        .required(true)
        .action(ArgAction::Set)
        .help("The type, by its name in the module")
}

/// The option for the encoding rules.
pub fn rules_option<'a>(alloc: Global) -> Arg<'a>
    ensures rule { (p : _) × TakesNames rule_names p × (rule_of result ≡ rules_rule p) }
    ensures local { result.global ≡ false }
{
    Arg::new(alloc, "rules")
        .long("rules")
        .value_name("RULES")
        .required(true)
        .action(ArgAction::Set)
        .value_parser(RULES.as_slice())
        .help("The encoding rules: uper is per, and coer is oer;\naper is not supported\n")
}

/// The command with the options for the module, and for why something is refused.
pub fn with_source<'a>(alloc: Global, command: Command<'a>) -> Result<Command<'a>, AllocError>
    ensures shape { IfOk result (λ c. app_of c ≡ with_rules (app_of command.entry) source_rules) }
    ensures local { (out-Command command.entry).has_globals ≡ false
        → IfOk result (λ c. (out-Command c).has_globals ≡ false) }
{
    let files = files_option(
        alloc,
        "module",
        "The files of the module, or of published modules,\ninstead of standard input",
    );
    let explain = flag(alloc, "explain", "Explains each refusal on standard error");
    command.arg(files)?.arg(explain)
}

/// The command with the options for the messages and the forms of their octets.
pub fn with_forms<'a>(
    alloc: Global,
    command: Command<'a>,
    name: &str,
) -> Result<Command<'a>, AllocError>
    ensures shape { IfOk result (λ c. (p : _) × (q : _) × TakesNames given_names p × TakesNames written_names q
        × (app_of c ≡ with_rules (app_of command.entry) (form_rules p q))) }
    ensures local { (out-Command command.entry).has_globals ≡ false
        → IfOk result (λ c. (out-Command c).has_globals ≡ false) }
{
    with_messages(alloc, command, name)?.arg(written_option(alloc, name))
}

/// The command with the options for the messages and the form in which their octets are given.
pub fn with_messages<'a>(
    alloc: Global,
    command: Command<'a>,
    name: &str,
) -> Result<Command<'a>, AllocError>
    ensures shape { IfOk result (λ c. (p : _) × TakesNames given_names p
        × (app_of c ≡ with_rules (app_of command.entry) (message_rules p))) }
    ensures local { (out-Command command.entry).has_globals ≡ false
        → IfOk result (λ c. (out-Command c).has_globals ≡ false) }
{
    let files = files_option(
        alloc,
        "messages",
        "The files of the messages, instead of standard input",
    );
    let split = shown_flag(
        alloc,
        "split",
        "Each text has messages one after the other",
        name,
    );
    command
        .arg(files)?
        .arg(given_option(alloc, name))?
        .arg(split)
}

/// The option for the form of the octets that are given.
fn given_option<'a>(alloc: Global, name: &str) -> Arg<'a>
    ensures rule { (p : _) × TakesNames given_names p × (rule_of result ≡ names_rule (codes "in") p) }
    ensures local { result.global ≡ false }
{
    Arg::new(alloc, "in")
        .long("in")
        .value_name("FORM")
        .action(ArgAction::Set)
        .hide(!is_taken(name, "in"))
        .hide_possible_values(true)
        .value_parser(GIVEN.as_slice())
        .help(
            "The form of the octets that are read, by default\nhexadecimal digits and nothing else\n[possible values: hex, hex-block, dump, base64,\nbinary]",
        )
}

/// The option for the form of the octets that are written.
fn written_option<'a>(alloc: Global, name: &str) -> Arg<'a>
    ensures rule { (p : _) × TakesNames written_names p × (rule_of result ≡ names_rule (codes "out") p) }
    ensures local { result.global ≡ false }
{
    Arg::new(alloc, "out")
        .long("out")
        .value_name("FORM")
        .action(ArgAction::Set)
        .hide(!is_taken(name, "out"))
        .value_parser(WRITTEN.as_slice())
        .help("The form of the octets that are written,\ndefault: hex")
}

/// The command with the options for the layout of JSON, for what is counted, and for what is not looked at.
pub fn with_answers<'a>(
    alloc: Global,
    command: Command<'a>,
    name: &str,
) -> Result<Command<'a>, AllocError>
    ensures shape { IfOk result (λ c. (p : _) × TakesNames member_names p
        × (app_of c ≡ with_rules (app_of command.entry) (answer_rules p))) }
    ensures local { (out-Command command.entry).has_globals ≡ false
        → IfOk result (λ c. (out-Command c).has_globals ≡ false) }
{
    let pretty = shown_flag(
        alloc,
        "pretty",
        "Prints each member and element on a line of its own",
        name,
    );
    let stats = shown_flag(
        alloc,
        "stats",
        "Counts messages, octets, alternatives and refusals\non standard error",
        name,
    );
    let wider = shown_flag(
        alloc,
        "accept-wider",
        "Answers a message plainly even if a part of it is\nnot looked at",
        name,
    );
    let command = command
        .arg(pretty)?
        .arg(members_option(alloc, name))?
        .arg(stats)?
        .arg(wider)?;
    with_versions(alloc, command, name)
}

/// The command with the options for messages of other versions of a type.
fn with_versions<'a>(
    alloc: Global,
    command: Command<'a>,
    name: &str,
) -> Result<Command<'a>, AllocError>
    ensures shape { IfOk result (λ c. app_of c ≡ with_rules (app_of command.entry) version_rules) }
    ensures local { (out-Command command.entry).has_globals ≡ false
        → IfOk result (λ c. (out-Command c).has_globals ≡ false) }
{
    let json = shown_flag(
        alloc,
        "json",
        "Prints an object with the value and what is skipped",
        name,
    );
    let newer = shown_flag(
        alloc,
        "newer",
        "Reads the objects that `newer --json` prints",
        name,
    );
    command.arg(json)?.arg(newer)
}

/// The option for the order of the members of JSON.
fn members_option<'a>(alloc: Global, name: &str) -> Arg<'a>
    ensures rule { (p : _) × TakesNames member_names p × (rule_of result ≡ names_rule (codes "order") p) }
    ensures local { result.global ≡ false }
{
    Arg::new(alloc, "order")
        .long("order")
        .value_name("ORDER")
        .action(ArgAction::Set)
        .hide(!is_taken(name, "order"))
        .value_parser(MEMBERS.as_slice())
        .help("The order of the members of objects\n[default: name]")
}

/// An option for files.
fn files_option<'a>(alloc: Global, name: &'a str, help: &'a str) -> Arg<'a>
    ensures rule { rule_of result ≡ files_rule name.entry.now }
    ensures local { result.global ≡ false }
{
    Arg::new(alloc, name)
        .long(name)
        .value_name("FILE")
        .num_args(1..)
        .action(ArgAction::Set)
        .help(help)
}

/// The command with the options for what the profile does not have as it is published.
pub fn with_leave<'a>(alloc: Global, command: Command<'a>) -> Result<Command<'a>, AllocError>
    ensures shape { IfOk result (λ c. app_of c ≡ with_rules (app_of command.entry) leave_rules) }
    ensures local { (out-Command command.entry).has_globals ≡ false
        → IfOk result (λ c. (out-Command c).has_globals ≡ false) }
{
    let plain_bits = flag(
        alloc,
        "plain-bits",
        "Reads named bits without a fixed size as BIT STRING;\nthe writer has to trim the last zeros",
    );
    let octets = flag(
        alloc,
        "octets",
        "Reads OBJECT IDENTIFIER, REAL and strings of other\ncharacters as OCTET STRING of their content",
    );
    let levels = number_option(
        alloc,
        "levels",
        "Reads a recursive type to N levels and refuses\ndeeper messages [default: 0, which refuses the type]",
    );
    let strict = flag(
        alloc,
        "strict",
        "Refuses types that differ from the published ones",
    );
    command
        .arg(plain_bits)?
        .arg(octets)?
        .arg(levels)?
        .arg(strict)
}

/// An option whose value is a number of 32 bits.
pub fn number_option<'a>(alloc: Global, name: &'a str, help: &'a str) -> Arg<'a>
    ensures rule { rule_of result ≡ number_rule name.entry.now }
    ensures local { result.global ≡ false }
{
    Arg::new(alloc, name)
        .long(name)
        .value_name("N")
        .action(ArgAction::Set)
        .value_parser(value_parser!(u32))
        .help(help)
}

/// An option without a value.
pub fn flag<'a>(alloc: Global, name: &'a str, help: &'a str) -> Arg<'a>
    ensures rule { rule_of result ≡ flag_rule name.entry.now }
    ensures local { result.global ≡ false }
{
    Arg::new(alloc, name)
        .long(name)
        .action(ArgAction::SetTrue)
        .help(help)
}

/// An option without a value, which help lists only if the subcommand takes it.
fn shown_flag<'a>(alloc: Global, name: &'a str, help: &'a str, subcommand: &str) -> Arg<'a>
    ensures rule { rule_of result ≡ flag_rule name.entry.now }
    ensures local { result.global ≡ false }
{
    flag(alloc, name, help).hide(!is_taken(subcommand, name))
}

/// Whether a subcommand takes an option, of those that only some take. The others refuse it with a word of their own.
fn is_taken(subcommand: &str, option: &str) -> bool {
    match option {
        "in" => subcommand != "encode",
        "split" => subcommand != "encode" && subcommand != "newer",
        "out" => subcommand == "encode" || subcommand == "convert",
        "pretty" | "order" => subcommand == "show" || subcommand == "newer",
        "stats" => subcommand == "check",
        "accept-wider" => subcommand != "newer",
        "json" => subcommand == "newer",
        "newer" => subcommand == "encode",
        _ => true,
    }
}
