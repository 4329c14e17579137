//! What is to be shown, by the options of a subcommand.
ghost use Rattle.std.specs.Prelude.{◌≡◌, ◌≢◌, IfOk, MatchOption, codes, option_map, string_bytes};
ghost use Rattle.clap.specs.Words.{first_of, found_of, rows_of};
ghost use Rattle.asn_request.specs.declared.look.Looking.{Looking};
ghost use Rattle.asn_request.specs.Request.{IsLook, look_name, name_id, rules_in, rules_of};

use crate::asking::{NO_TYPE_NAME, has_control};
use asn_jobs::RuleName;
use clap::ArgMatches;
use std::alloc::{AllocError, Global};

/// What is shown, of the module or of messages of a type of it.
#[derive(Drop)]
pub struct Look {
    pub what: Looking,
    /// The name of the type; of the types of the module where none is named.
    pub type_name: Option<String>,
    /// The encoding rules of the messages.
    pub rules: RuleName,
    /// Whether messages are shown as pages of HTML.
    pub is_page: bool,
    /// The seed of the value; the least value where there is none.
    pub seed: Option<u32>,
    /// How many values are given, of one seed after the other; one where it is not said.
    pub count: Option<u32>,
}

impl Look {
    /// Why none of it is shown, whatever the module is: no module has a type of the name.
    pub fn unserved(&self) -> Option<&'static str> {
        match &self.type_name {
            Some(name) if has_control(name.as_str()) => Some(NO_TYPE_NAME),
            _ => None,
        }
    }
}

/// What there is to be shown.
#[derive(Clone, Copy, PartialEq, Eq)]
pub enum Looking {
    /// Messages, field by field.
    Fields,
    /// The names of the types, or a type with the sizes of its parts.
    Types,
    /// Values of the type.
    Example,
}

/// What is shown, by these options of the subcommand.
pub fn look_of(alloc: Global, options: &ArgMatches<'_>, what: Looking) -> Result<Look, AllocError>
    ensures what { IfOk result (λ look. look.what ≡ what) }
    ensures look { IfOk result (λ look. IsLook (rows_of (found_of options.now)) look) }
{
    Ok(Look {
        what,
        type_name: text_in(alloc, options, name_id(what))?,
        rules: rules_in(options),
        is_page: options.get_flag("html"),
        seed: options.get_one("seed"),
        count: options.get_one("count"),
    })
}

/// The id of the argument that names the type.
fn name_id(what: Looking) -> &'static str
    ensures { result.now ≡ name_id what }
{
    match what {
        Looking::Fields | Looking::Example => "type",
        Looking::Types => "name",
    }
}

/// The value of the argument of this id, if it was used.
pub(crate) fn text_in(
    alloc: Global,
    options: &ArgMatches<'_>,
    id: &str,
) -> Result<Option<String>, AllocError>
    ensures { IfOk result (λ t. option_map string_bytes t ≡ first_of id.now (rows_of (found_of options.now))) }
{
    match options.get_str(id) {
        Some(text) => Ok(Some(String::from_str(alloc, text)?)),
        None => Ok(None),
    }
}

/// The encoding rules: PER where none are named.
fn rules_in(options: &ArgMatches<'_>) -> RuleName
    ensures { result ≡ rules_in (rows_of (found_of options.now)) }
{
    match options.get_str("rules") {
        Some(name) => rules_of(name),
        None => RuleName::Per,
    }
}

/// The encoding rules of this name: PER if it is neither `oer` nor `coer`.
pub(crate) fn rules_of(name: &str) -> RuleName
    ensures { result ≡ rules_of name.now }
{
    match name {
        "oer" => RuleName::Oer,
        "coer" => RuleName::Oer,
        _ => RuleName::Per,
    }
}

/// What the subcommand of this name shows.
pub fn looking_named(name: &str) -> Option<Looking>
    ensures { MatchOption result
        ((l : Looking) → look_name l ≢ name.now) (λ l. look_name l ≡ name.now) }
{
    match name {
        "fields" => Some(Looking::Fields),
        "types" => Some(Looking::Types),
        "example" => Some(Looking::Example),
        _ => None,
    }
}
