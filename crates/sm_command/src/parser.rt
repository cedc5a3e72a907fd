//! The parser of the command line.

use crate::building::Building;
use clap::{Arg, ArgAction, Command, value_parser};
use std::alloc::{AllocError, Global};

/// The version of the program.
pub const VERSION: &str = "0.2.0";

/// Returns the parser of the command line.
pub fn command<'a>(alloc: Global) -> Result<Command<'a>, AllocError> {
    Building::of(program(alloc))
        .subcommand(run(alloc))
        .subcommand(check(alloc))
        .subcommand(serve(alloc))
        .subcommand(label(alloc))
        .subcommand(explain(alloc))
        .subcommand(access(alloc))
        .subcommand(rules(alloc))
        .subcommand(types(alloc))
        .subcommand(names(alloc))
        .subcommand(suggest(alloc))
        .subcommand(unused(alloc))
        .subcommand(diff(alloc))
        .subcommand(admin(alloc))
        .subcommand(status(alloc))
        .end()
}

fn program<'a>(alloc: Global) -> Command<'a> {
    Command::new(alloc, "svcmgr")
        .about("A service manager with SELinux access control")
        .version(VERSION)
        .subcommand_required(true)
}

fn run<'a>(alloc: Global) -> Building<'a> {
    let run = Building::new(alloc, "run", "Runs a script from standard input");
    with_files(alloc, run.arg(journal(alloc)))
}

fn check<'a>(alloc: Global) -> Building<'a> {
    let about = "Tells whether a policy is accepted";
    let check = Building::new(alloc, "check", about)
        .arg(all(alloc))
        .arg(show(alloc));
    with_files(alloc, check)
}

fn serve<'a>(alloc: Global) -> Building<'a> {
    let about = "Serves clients and administrators over Unix sockets";
    let serve = Building::new(alloc, "serve", about)
        .arg(journal(alloc))
        .arg(seal_at(alloc))
        .arg(seal_bytes(alloc))
        .arg(workers(alloc))
        .arg(permissions(alloc))
        .arg(audit(alloc))
        .arg(audit_rate(alloc))
        .arg(take_wait(alloc))
        .arg(word(
            alloc,
            "status",
            "PATH",
            "The owner's socket, at which the server tells its state",
        ))
        .arg(socket(alloc, "socket", "The clients' socket"))
        .arg(socket(alloc, "admin", "The administrators' socket"));
    with_files(alloc, serve)
}

fn label<'a>(alloc: Global) -> Building<'a> {
    let about = "Tells the context of a service, and the line that gives it";
    with_files(alloc, Building::new(alloc, "label", about)).arg(operand(
        alloc,
        "name",
        "NAME",
        "The name of a service",
    ))
}

fn explain<'a>(alloc: Global) -> Building<'a> {
    let about = "Tells which rule grants an access";
    let explain = Building::new(alloc, "explain", about).arg(by_name(alloc));
    let target = "A type, or the name of a service with --name";
    with_access(alloc, with_files(alloc, explain), target)
}

fn access<'a>(alloc: Global) -> Building<'a> {
    let about = "Lists the accesses that a policy allows, with the lines of their rules";
    let access = Building::new(alloc, "access", about);
    with_files(alloc, with_filter(alloc, access))
}

fn rules<'a>(alloc: Global) -> Building<'a> {
    let about = "Lists the rules of a policy that cover some access, each on one line";
    let kinds = "Only those of this kind: allow, neverallow or dontaudit";
    let rules = Building::new(alloc, "rules", about).arg(word(alloc, "kind", "KIND", kinds));
    with_files(alloc, with_filter(alloc, rules))
}

fn types<'a>(alloc: Global) -> Building<'a> {
    let about =
        "Lists the types of a policy with their attributes, and its attributes with their types";
    let name = "Only the type or the attribute of this name";
    let types = Building::new(alloc, "types", about).arg(word(alloc, "of", "NAME", name));
    with_files(alloc, types)
}

fn names<'a>(alloc: Global) -> Building<'a> {
    let about = "Lists the names of services for which a source has a permission, with their types";
    let source = "The type that has the permission";
    let perm = "The permission of service_manager";
    let names = Building::new(alloc, "names", about)
        .arg(word(alloc, "source", "TYPE", source).required(true))
        .arg(word(alloc, "perm", "PERM", perm).default_value("find"));
    with_files(alloc, names)
}

fn suggest<'a>(alloc: Global) -> Building<'a> {
    let about = "Tells what a policy says of each access in a log of denials, from standard input";
    with_files(alloc, Building::new(alloc, "suggest", about))
}

fn unused<'a>(alloc: Global) -> Building<'a> {
    let about = "Lists the rules, attributes, types and keys of a policy that are of no use";
    with_files(alloc, Building::new(alloc, "unused", about))
}

fn diff<'a>(alloc: Global) -> Building<'a> {
    let about = "Lists what differs between two policies";
    with_files(
        alloc,
        Building::new(alloc, "diff", about).arg(by_rules(alloc)),
    )
    .arg(operand(
        alloc,
        "new-rules",
        "NEWRULES",
        "A second file of SELinux rules",
    ))
    .arg(operand(
        alloc,
        "new-contexts",
        "NEWCONTEXTS",
        "A second file of service contexts",
    ))
}

fn admin<'a>(alloc: Global) -> Building<'a> {
    let program = Command::new(alloc, "admin")
        .about("Asks a running server as its administrator")
        .subcommand_required(true);
    let path =
        "The administrators' socket; without it that of SVCMGR_ADMIN (the clients' socket answers malformed)";
    let version = "Tells the version of the policy and the length of the journal";
    let denials = "Lists the newest denied requests";
    let seal = "Closes the open segment of the journal, and drops it";
    let explain = "Tells which rule of the policy in force grants an access";
    Building::of(program)
        .arg(word(alloc, "admin", "PATH", path))
        .subcommand(Building::new(alloc, "version", version))
        .subcommand(Building::new(alloc, "denials", denials))
        .subcommand(Building::new(alloc, "seal", seal))
        .subcommand(with_files(alloc, Building::new(alloc, "reload", "Replaces the policy")))
        .subcommand(with_access(alloc, Building::new(alloc, "explain", explain), "A type"))
}

fn status<'a>(alloc: Global) -> Building<'a> {
    let path = "The owner's socket; without it that of SVCMGR_STATUS";
    let about = "Tells what a running server has: clients, services and watches";
    Building::new(alloc, "status", about).arg(word(alloc, "status", "PATH", path))
}

/// Adds the words of an access to a command.
fn with_access<'a>(alloc: Global, command: Building<'a>, target: &'a str) -> Building<'a> {
    command
        .arg(operand(alloc, "source", "SOURCE", "A type"))
        .arg(operand(alloc, "target", "TARGET", target))
        .arg(operand(alloc, "class", "CLASS", "service_manager or binder"))
        .arg(operand(alloc, "perm", "PERM", "A permission of the class"))
}

/// Adds the options that leave some accesses to a command.
fn with_filter<'a>(alloc: Global, command: Building<'a>) -> Building<'a> {
    command
        .arg(word(alloc, "source", "TYPE", "Only those of this type"))
        .try_arg(target(alloc))
        .arg(word(alloc, "name", "NAME", "Only those to this service"))
        .arg(word(alloc, "class", "CLASS", "Only those of this class"))
        .arg(word(alloc, "perm", "PERM", "Only those with this permission"))
}

/// Adds the files of a policy to a command.
fn with_files<'a>(alloc: Global, command: Building<'a>) -> Building<'a> {
    command
        .arg(operand(alloc, "rules", "RULES", "A file of SELinux rules"))
        .arg(operand(alloc, "contexts", "CONTEXTS", "A file of service contexts"))
}

/// Returns an argument without an option, which has to be there.
fn operand<'a>(alloc: Global, id: &'a str, value: &'a str, help: &'a str) -> Arg<'a> {
    Arg::new(alloc, id)
        .value_name(value)
        .help(help)
        .required(true)
}

/// Returns an option with a word.
fn word<'a>(alloc: Global, name: &'a str, value: &'a str, help: &'a str) -> Arg<'a> {
    Arg::new(alloc, name)
        .long(name)
        .value_name(value)
        .help(help)
}

fn target<'a>(alloc: Global) -> Result<Arg<'a>, AllocError> {
    word(alloc, "target", "TYPE", "Only those to this type").conflicts_with("name")
}

fn by_name<'a>(alloc: Global) -> Arg<'a> {
    Arg::new(alloc, "name")
        .long("name")
        .help("Takes TARGET as the name of a service")
        .action(ArgAction::SetTrue)
}

fn by_rules<'a>(alloc: Global) -> Arg<'a> {
    Arg::new(alloc, "by-rules")
        .long("rules")
        .help("Lists the rules that grant what differs in place of the accesses")
        .action(ArgAction::SetTrue)
}

fn all<'a>(alloc: Global) -> Arg<'a> {
    Arg::new(alloc, "all")
        .long("all")
        .help("Names each neverallow rule that is broken with each allow rule that breaks it")
        .action(ArgAction::SetTrue)
}

fn show<'a>(alloc: Global) -> Arg<'a> {
    Arg::new(alloc, "show")
        .long("show")
        .help("Shows the statements and lines that a refusal names, on standard error")
        .action(ArgAction::SetTrue)
}

fn journal<'a>(alloc: Global) -> Arg<'a> {
    word(
        alloc,
        "journal",
        "N",
        "The number of slots in the journal, 2 to 1048576 [default: 1048576]",
    )
    .value_parser(value_parser!(u32).range(2..=1_048_576))
}

fn workers<'a>(alloc: Global) -> Arg<'a> {
    word(
        alloc,
        "workers",
        "W",
        "How many clients are served at once, 1 to 64",
    )
    .value_parser(value_parser!(u32).range(1..=64))
    .default_value("16")
}

fn seal_at<'a>(alloc: Global) -> Arg<'a> {
    word(
        alloc,
        "seal-at",
        "N",
        "Seals the journal whenever N of its slots are used, 2 to half of them [default: half of them, without --journal]",
    )
    .value_parser(value_parser!(u32).range(2..=1_048_576))
}

fn seal_bytes<'a>(alloc: Global) -> Arg<'a> {
    word(
        alloc,
        "seal-bytes",
        "N",
        "Seals the journal whenever its entries have N bytes, at least 4096 [default: 67108864, unless --journal is given alone]",
    )
    .value_parser(value_parser!(u64).range(4_096..))
}

fn permissions<'a>(alloc: Global) -> Arg<'a> {
    word(
        alloc,
        "mode",
        "MODE",
        "The permissions of the clients' socket in octal, 0 to 777",
    )
}

fn audit<'a>(alloc: Global) -> Arg<'a> {
    Arg::new(alloc, "audit")
        .long("audit")
        .help("Writes the audit lines of clients' requests to standard error")
        .action(ArgAction::SetTrue)
}

fn audit_rate<'a>(alloc: Global) -> Arg<'a> {
    word(
        alloc,
        "audit-rate",
        "N",
        "Writes at most N audit lines a second, 0 to 1000000, and how many were left out; 0 is no limit [default: 0]",
    )
    .value_parser(value_parser!(u32).range(0..=1_000_000))
}

fn take_wait<'a>(alloc: Global) -> Arg<'a> {
    word(
        alloc,
        "take-wait",
        "MS",
        "Lets a take wait for a delivery for MS milliseconds, 0 to 60000 [default: 0]",
    )
    .value_parser(value_parser!(u32).range(0..=60_000))
}

fn socket<'a>(alloc: Global, name: &'a str, help: &'a str) -> Arg<'a> {
    word(alloc, name, "PATH", help).required(true)
}
