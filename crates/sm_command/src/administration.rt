//! Requests to a running server as its administrator.

use crate::question::NewFiles;
use clap::ArgMatches;
use sm_values::all_graphic;

/// A request to a running server.
#[derive(Clone, Copy, PartialEq, Eq)]
pub struct Administration<'a> {
    /// The path of the administrators' socket, if the command line has it.
    pub socket: Option<&'a str>,
    pub request: AdminRequest<'a>,
}

/// What a server is asked for.
#[derive(Clone, Copy, PartialEq, Eq)]
pub enum AdminRequest<'a> {
    /// `svcmgr admin version`
    Version,
    /// `svcmgr admin denials`
    Denials,
    /// `svcmgr admin seal`
    Seal,
    /// `svcmgr admin reload RULES CONTEXTS`
    Reload(NewFiles<'a>),
    /// `svcmgr admin explain SOURCE TARGET CLASS PERM`
    Explain(RuleWords<'a>),
}

/// The words of an access, as a server is asked for its rule.
#[derive(Clone, Copy, PartialEq, Eq)]
pub struct RuleWords<'a> {
    pub source: &'a str,
    pub target: &'a str,
    pub class: &'a str,
    pub perm: &'a str,
}

/// Returns the request of an `admin` command.
pub fn administration_of<'a>(matches: &ArgMatches<'a>) -> Option<Administration<'a>> {
    let (name, words) = matches.subcommand()?;
    Some(Administration {
        socket: matches.get_str("admin"),
        request: request_of(name, words)?,
    })
}

fn request_of<'a>(name: &str, matches: &ArgMatches<'a>) -> Option<AdminRequest<'a>> {
    match name {
        "version" => Some(AdminRequest::Version),
        "denials" => Some(AdminRequest::Denials),
        "seal" => Some(AdminRequest::Seal),
        "reload" => Some(AdminRequest::Reload(files_of(matches)?)),
        _ => Some(AdminRequest::Explain(rule_words_of(matches)?)),
    }
}

fn files_of<'a>(matches: &ArgMatches<'a>) -> Option<NewFiles<'a>> {
    Some(NewFiles {
        rules: matches.get_str("rules")?,
        contexts: matches.get_str("contexts")?,
    })
}

fn rule_words_of<'a>(matches: &ArgMatches<'a>) -> Option<RuleWords<'a>> {
    Some(RuleWords {
        source: matches.get_str("source")?,
        target: matches.get_str("target")?,
        class: matches.get_str("class")?,
        perm: matches.get_str("perm")?,
    })
}

/// Returns what is wrong with the words of an `admin` command, each of which is valid by itself: an empty path, or a
/// word with a byte that would end it or its line.
pub fn misused_request(administration: &Administration) -> Option<&'static str> {
    if administration.socket == Some("") {
        return Some("the path of --admin is empty");
    }
    let AdminRequest::Explain(words) = administration.request else {
        return None;
    };
    for word in [words.source, words.target, words.class, words.perm] {
        if !is_word(word) {
            return Some("a type, a class and a permission are words of visible ASCII characters");
        }
    }
    None
}

fn is_word(text: &str) -> bool {
    !text.is_empty() && all_graphic(text.as_bytes())
}
