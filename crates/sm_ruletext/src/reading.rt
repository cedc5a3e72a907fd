//! Reads a whole policy source.

ghost use Rattle.std.specs.Prelude.{◌≡◌, ◌<◌, ◌≤◌, ◌+◌, ◌^◌, ◌++◌, ◌∷◌, [], List, length, OnOk, IfOk, IfErr};
ghost use Rattle.sm_values.specs.Reading.{Gives};
ghost use Rattle.sm_ruletext.specs.Grammar.{Reads, is_memory};
ghost use Rattle.sm_ruletext.specs.Lexing.{tokens};
ghost use Rattle.sm_ruletext.specs.Spelling.{SpellsText, IsFaultOf};
ghost use Rattle.sm_ruletext.specs.Statements as spec;
ghost use Rattle.sm_ruletext.specs.declared.keyword.Keyword.TheVariants as word;
ghost use Rattle.sm_ruletext.specs.declared.statement.Statement.{Statement};

use crate::items::Items;
use crate::keyword::{Keyword, keyword_of};
use crate::statements::Statements;
use crate::token::TokenKind;
use crate::tokens::Tokens;
use crate::{RuleKind, RuleTextFault, Statement, What, grammar};
use sm_values::{MOST_TEXT_BYTES, Names};
use std::alloc::Global;

#[tactic(auto, unfolding(crate::specs::Statements::skipped_at, crate::specs::Grammar::kind_at))]
fn skipped(tokens: &mut Tokens, line: u32) -> Result<(), RuleTextFault>
    ensures read { Reads (λ _. tt) result tokens.new (spec.skipped_at line tokens.old) }
    ensures fewer { OnOk result (length tokens.new ≤ length tokens.old) }
{
    'skipped: loop {
        if let TokenKind::Semicolon = grammar::kind(tokens, line)? {
            return Ok(());
        }
    }
}

/// Reads what follows the first word of a rule: nothing, if the rule isn't kept.
#[tactic(auto, unfolding(crate::specs::Statements::what_at))]
fn rule<'a>(
    alloc: Global,
    tokens: &mut Tokens<'a>,
    items: &mut Items<'a>,
    line: u32,
    kind: RuleKind,
) -> Result<Option<What>, RuleTextFault>
    ensures read { Reads (λ w. w) result tokens.new (spec.what_at line (word.Rule kind) tokens.old) }
    ensures fewer { OnOk result (length tokens.new ≤ length tokens.old) }
{
    let rule = grammar::rule(alloc, tokens, items, line)?;
    if rule.is_kept() {
        Ok(Some(What::Rule(kind, rule)))
    } else {
        Ok(None)
    }
}

#[tactic(auto, unfolding(crate::specs::Statements::what_at))]
fn what<'a>(
    alloc: Global,
    tokens: &mut Tokens<'a>,
    items: &mut Items<'a>,
    line: u32,
    keyword: Keyword,
) -> Result<Option<What>, RuleTextFault>
    ensures read { Reads (λ w. w) result tokens.new (spec.what_at line keyword tokens.old) }
    ensures fewer { OnOk result (length tokens.new ≤ length tokens.old) }
{
    match keyword {
        Keyword::Attribute => {
            let name = grammar::name(alloc, tokens, line)?;
            grammar::semicolon(tokens, line)?;
            Ok(Some(What::Attribute(name)))
        }
        Keyword::Types => {
            let name = grammar::name(alloc, tokens, line)?;
            let names = grammar::names(alloc, tokens, line, Names::new(alloc))?;
            Ok(Some(What::Declared(name, names)))
        }
        Keyword::Typeattribute => {
            let name = grammar::name(alloc, tokens, line)?;
            let first = grammar::name(alloc, tokens, line)?;
            let mut names = Names::new(alloc);
            names.push(first)?;
            let names = grammar::names(alloc, tokens, line, names)?;
            Ok(Some(What::Member(name, names)))
        }
        Keyword::Rule(kind) => rule(alloc, tokens, items, line, kind),
        Keyword::Permissive => {
            let name = grammar::name(alloc, tokens, line)?;
            grammar::semicolon(tokens, line)?;
            Ok(Some(What::Permissive(name)))
        }
        Keyword::Skipped => {
            skipped(tokens, line)?;
            Ok(None)
        }
        Keyword::Unknown => Err(RuleTextFault::Unsupported(line)),
    }
}

/// Reads the statements of a policy source, in order.
pub fn read(alloc: Global, text: &[u8]) -> Result<Vec<Statement>, RuleTextFault>
    // Which fault it is, if it is one.
    ensures exact { Gives is_memory (λ v. v.items) result (spec.read text.now) }
    // What is read is spelled so.
    ensures found { IfOk result (λ v. SpellsText [] (tokens 0 1 text.now) v.items) }
    // What is refused has that fault first.
    ensures faults { IfErr result (λ e. IsFaultOf e text.now) }
    // What is spelled so is read, unless memory runs out.
    ensures only { (sts : List Statement) → length text.now ≤ MOST_TEXT_BYTES
        → SpellsText [] (tokens 0 1 text.now) sts
        → Gives is_memory (λ v. v.items) result (Ok sts) }
{
    exactly(alloc, text)
}

#[tactic(auto, unfolding(crate::specs::Statements::read))]
fn exactly(alloc: Global, text: &[u8]) -> Result<Vec<Statement>, RuleTextFault>
    ensures { Gives is_memory (λ v. v.items) result (spec.read text.now) }
{
    if text.len() > MOST_TEXT_BYTES {
        return Err(RuleTextFault::TooLarge);
    }
    all(alloc, Tokens::new(alloc, text))
}

/// Reads one statement, whose first token has been taken.
#[tactic(auto, unfolding(crate::specs::Statements::statement_from))]
fn statement<'a>(
    alloc: Global,
    tokens: &mut Tokens<'a>,
    items: &mut Items<'a>,
    mut statements: Statements,
    line: u32,
    first: TokenKind<'a>,
) -> Result<Statements, RuleTextFault>
    ensures read { Reads
        (λ s. s) result tokens.new (spec.statement_from line first.entry statements tokens.old) }
    ensures fewer { OnOk result (length tokens.new ≤ length tokens.old) }
{
    match first {
        TokenKind::Semicolon => Ok(statements),
        TokenKind::Word(word) => {
            let what = what(alloc, tokens, items, line, keyword_of(word.bytes()))?;
            statements.add(line, what)?;
            Ok(statements)
        }
        _ => Err(RuleTextFault::Syntax(line)),
    }
}

fn all(alloc: Global, mut tokens: Tokens) -> Result<Vec<Statement>, RuleTextFault>
    ensures { Gives is_memory (λ v. v.items) result (spec.statements_of tokens.entry) }
{
    let mut items = Items::none(alloc);
    let mut statements = Statements::new(alloc);
    'statements: while let Some((line, first)) = tokens.take() {
        statements = statement(alloc, &mut tokens, &mut items, statements, line, first)?;
    }
    Ok(statements.into_vec())
}
