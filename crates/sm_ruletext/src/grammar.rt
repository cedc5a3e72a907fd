//! Reads parts of statements. A fault has the statement's line.

ghost use Rattle.std.specs.Prelude.{◌≡◌, ◌<◌, ◌≤◌, ◌+◌, ◌^◌, ◌++◌, ◌∷◌, [], zero, true, false, length, option_to_list};
ghost use Rattle.std.specs.Prelude.{OnOk, IfOk};
ghost use Rattle.sm_ruletext.specs.Grammar as spec;
ghost use Rattle.sm_values.specs.Reading.{Gives};
ghost use Rattle.sm_ruletext.specs.Grammar.{Reads, is_memory};

use crate::items::Items;
use crate::keyword::is_self;
use crate::token::TokenKind;
use crate::tokens::Tokens;
use crate::{Rule, RuleTextFault, Set};
use sm_values::{Name, Names, Word};
use std::alloc::Global;

/// Returns the next token.
#[tactic(auto, unfolding(crate::specs::Grammar::kind_at))]
pub fn kind<'a>(tokens: &mut Tokens<'a>, line: u32) -> Result<TokenKind<'a>, RuleTextFault>
    ensures read { Reads (λ k. k) result tokens.new (spec.kind_at line tokens.old) }
    ensures fewer { OnOk result (length tokens.new + 1 ≡ length tokens.old) }
    ensures few { length tokens.old < 2 ^ 32 }
{
    match tokens.take() {
        Some((_, kind)) => Ok(kind),
        None => Err(RuleTextFault::Syntax(line)),
    }
}

#[tactic(auto, unfolding(crate::specs::Grammar::kind_at, crate::specs::Grammar::colon_at))]
fn colon(tokens: &mut Tokens, line: u32) -> Result<(), RuleTextFault>
    ensures read { Reads (λ _. tt) result tokens.new (spec.colon_at line tokens.old) }
    ensures fewer { OnOk result (length tokens.new ≤ length tokens.old) }
{
    match kind(tokens, line)? {
        TokenKind::Colon => Ok(()),
        _ => Err(RuleTextFault::Syntax(line)),
    }
}

/// Reads a semicolon.
#[tactic(auto, unfolding(crate::specs::Grammar::kind_at, crate::specs::Grammar::semicolon_at))]
pub fn semicolon(tokens: &mut Tokens, line: u32) -> Result<(), RuleTextFault>
    ensures read { Reads (λ _. tt) result tokens.new (spec.semicolon_at line tokens.old) }
    ensures fewer { OnOk result (length tokens.new ≤ length tokens.old) }
{
    match kind(tokens, line)? {
        TokenKind::Semicolon => Ok(()),
        _ => Err(RuleTextFault::Syntax(line)),
    }
}

/// Reads a word that may be a name.
#[tactic(auto, unfolding(crate::specs::Grammar::kind_at, crate::specs::Grammar::name_at))]
fn name_word<'a>(tokens: &mut Tokens<'a>, line: u32) -> Result<Word<'a>, RuleTextFault>
    ensures read { Reads (λ w. w) result tokens.new (spec.name_at line tokens.old) }
    ensures fewer { OnOk result (length tokens.new + 1 ≡ length tokens.old) }
{
    match kind(tokens, line)? {
        TokenKind::Word(word) if !is_self(word.bytes()) => Ok(word),
        _ => Err(RuleTextFault::Syntax(line)),
    }
}

/// Reads a name.
pub fn name(alloc: Global, tokens: &mut Tokens, line: u32) -> Result<Name, RuleTextFault>
    ensures read { Reads (λ n. n) result tokens.new (spec.name_at line tokens.old) }
    ensures fewer { OnOk result (length tokens.new + 1 ≡ length tokens.old) }
{
    let word = name_word(tokens, line)?;
    Ok(tokens.name(alloc, word.bytes())?)
}

/// Reads further names, each after a comma, and the semicolon.
#[tactic(auto, unfolding(crate::specs::Grammar::names_at, crate::specs::Grammar::kind_at, crate::specs::Grammar::name_at))]
pub fn names(
    alloc: Global,
    tokens: &mut Tokens,
    line: u32,
    mut names: Names,
) -> Result<Names, RuleTextFault>
    ensures read { Reads (λ n. n) result tokens.new (spec.names_at line names tokens.old) }
    ensures fewer { OnOk result (length tokens.new ≤ length tokens.old) }
{
    'names: loop {
        match kind(tokens, line)? {
            TokenKind::Semicolon => return Ok(names),
            TokenKind::Comma => {
                let name = name(alloc, tokens, line)?;
                names.push(name)?;
            }
            _ => return Err(RuleTextFault::Syntax(line)),
        }
    }
}

#[tactic(auto, unfolding(crate::specs::Grammar::with_word))]
#[inline(always)]
fn add_word<'a>(
    items: &mut Items<'a>,
    line: u32,
    may_self: bool,
    word: Word<'a>,
) -> Result<(), RuleTextFault>
    ensures { Gives is_memory (λ _. items.new) result (spec.with_word line may_self items.old word.entry) }
{
    if !is_self(word.bytes()) {
        items.add(word)?;
    } else if may_self {
        items.add_self();
    } else {
        return Err(RuleTextFault::Syntax(line));
    }
    Ok(())
}

/// Reads items up to the end of a group, from after its brace.
#[tactic(auto, unfolding(crate::specs::Grammar::group_at, crate::specs::Grammar::kind_at, crate::specs::Grammar::name_at))]
fn group<'a>(
    tokens: &mut Tokens<'a>,
    items: &mut Items<'a>,
    line: u32,
    may_self: bool,
) -> Result<(), RuleTextFault>
    requires { length tokens.old < 2 ^ 32 }
    ensures read { Reads
        (λ _. items.new) result tokens.new (spec.group_at line may_self zero true items.old tokens.old) }
    ensures fewer { OnOk result (length tokens.new ≤ length tokens.old) }
{
    let mut depth: usize = 0;
    let mut fresh = true;
    'items: loop {
        match kind(tokens, line)? {
            TokenKind::Word(word) => {
                add_word(items, line, may_self, word)?;
                fresh = false;
            }
            TokenKind::Dash => {
                let word = name_word(tokens, line)?;
                items.subtract(word)?;
                fresh = false;
            }
            TokenKind::Star => {
                items.add_all();
                fresh = false;
            }
            TokenKind::Open => {
                depth += 1;
                fresh = true;
            }
            TokenKind::Close => {
                if fresh {
                    return Err(RuleTextFault::Syntax(line));
                }
                if depth == 0 {
                    return Ok(());
                }
                depth -= 1;
            }
            _ => return Err(RuleTextFault::Syntax(line)),
        }
    }
}

/// Reads a word or a group, whose first token has been taken.
#[tactic(auto, unfolding(crate::specs::Grammar::items_from))]
#[inline(always)]
fn items_from<'a>(
    tokens: &mut Tokens<'a>,
    items: &mut Items<'a>,
    line: u32,
    may_self: bool,
    first: TokenKind<'a>,
) -> Result<(), RuleTextFault>
    requires few { length tokens.old < 2 ^ 32 }
    requires none { items.old ≡ spec.no_items }
    ensures read { Reads
        (λ _. items.new) result tokens.new (spec.items_from line may_self first.entry tokens.old) }
    ensures fewer { OnOk result (length tokens.new ≤ length tokens.old) }
{
    match first {
        TokenKind::Word(word) => add_word(items, line, may_self, word),
        TokenKind::Open => group(tokens, items, line, may_self),
        _ => Err(RuleTextFault::Syntax(line)),
    }
}

/// Reads a set. Its items are then in `items`, unless it is a word.
#[tactic(auto, unfolding(crate::specs::Grammar::set_at, crate::specs::Grammar::set_from, crate::specs::Grammar::items_from, crate::specs::Grammar::with_word))]
#[inline(always)]
fn set<'a>(
    alloc: Global,
    tokens: &mut Tokens<'a>,
    items: &mut Items<'a>,
    line: u32,
    may_self: bool,
) -> Result<Set, RuleTextFault>
    ensures read { Reads
        (λ s. (s, items.new.to_self)) result tokens.new (spec.set_at line may_self tokens.old) }
    ensures fewer { OnOk result (length tokens.new ≤ length tokens.old) }
{
    items.clear();
    match kind(tokens, line)? {
        TokenKind::Star => {
            items.add_all();
            Ok(tokens.set(alloc, line, false, items)?)
        }
        TokenKind::Tilde => {
            let first = kind(tokens, line)?;
            items_from(tokens, items, line, false, first)?;
            Ok(tokens.set(alloc, line, true, items)?)
        }
        TokenKind::Word(word) if !is_self(word.bytes()) => {
            Ok(tokens.word_set(alloc, line, word.bytes())?)
        }
        first => {
            items_from(tokens, items, line, may_self, first)?;
            Ok(tokens.set(alloc, line, false, items)?)
        }
    }
}

/// Reads what follows `allow`, `neverallow` or `dontaudit`.
#[tactic(auto, unfolding(crate::specs::Grammar::rule_at))]
pub fn rule<'a>(
    alloc: Global,
    tokens: &mut Tokens<'a>,
    items: &mut Items<'a>,
    line: u32,
) -> Result<Rule, RuleTextFault>
    ensures read { Reads (λ r. r) result tokens.new (spec.rule_at line tokens.old) }
    ensures fewer { OnOk result (length tokens.new ≤ length tokens.old) }
{
    let source = set(alloc, tokens, items, line, false)?;
    let target = set(alloc, tokens, items, line, true)?;
    let to_self = items.has_self();
    colon(tokens, line)?;
    let class = set(alloc, tokens, items, line, false)?;
    let perm = set(alloc, tokens, items, line, false)?;
    semicolon(tokens, line)?;
    Ok(Rule {
        source,
        target,
        class,
        perm,
        to_self,
    })
}
