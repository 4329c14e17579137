//! The command line as `clap` knows it.
ghost use Rattle.std.specs.Prelude.{◌≡◌, IfOk};
ghost use Rattle.clap.specs.Words.{app_of};
ghost use Rattle.asn_request.specs.Command.{HasLooks, HasOrders, IsTool, bare_tool};

use crate::help;
use crate::words::{example, fields, flatten, module, order, reading, types};
use clap::Command;
use std::alloc::{AllocError, Global};

/// The program's command, with a subcommand for published modules, for the module and for each order.
pub fn command<'a>(alloc: Global) -> Result<Command<'a>, AllocError>
    ensures { IfOk result (λ c. IsTool (app_of c)) }
{
    let tool = bare(alloc)?;
    let tool = with_looks(alloc, tool)?;
    with_orders(alloc, tool)
}

/// The command, before it has subcommands.
fn bare<'a>(alloc: Global) -> Result<Command<'a>, AllocError>
    ensures { IfOk result (λ c. app_of c ≡ bare_tool) }
{
    Command::new(alloc, "asn_tool")
        .version("0.1.0")
        .about("Shows, checks, encodes and converts ASN.1 messages in UPER and COER")
        .after_help(help::PROGRAM)
        .no_binary_name(true)
        .subcommand_required(true)
        .bin_name("asn_tool")
}

/// The command with the subcommands for modules, fields, types and values.
fn with_looks<'a>(alloc: Global, tool: Command<'a>) -> Result<Command<'a>, AllocError>
    ensures { IfOk result (λ c. HasLooks (app_of tool.entry) (app_of c)) }
{
    tool.subcommand(flatten(alloc)?)?
        .subcommand(module(alloc)?)?
        .subcommand(fields(alloc)?)?
        .subcommand(types(alloc)?)?
        .subcommand(example(alloc)?)
}

/// The command with a subcommand for each order.
fn with_orders<'a>(alloc: Global, tool: Command<'a>) -> Result<Command<'a>, AllocError>
    ensures { IfOk result (λ c. HasOrders (app_of tool.entry) (app_of c)) }
{
    tool.subcommand(reading(alloc, "show", "Shows messages as JSON", help::SHOW)?)?
        .subcommand(reading(alloc, "check", "Checks messages", help::CHECK)?)?
        .subcommand(reading(alloc, "encode", "Encodes JSON", help::ENCODE)?)?
        .subcommand(reading(
            alloc,
            "convert",
            "Converts messages to the other rules",
            help::CONVERT,
        )?)?
        .subcommand(order(
            alloc,
            "newer",
            "Shows messages of other versions of a type",
            help::NEWER,
        )?)
}
