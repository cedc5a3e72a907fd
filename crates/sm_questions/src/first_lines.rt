//! The line of the first allow rule that grants a source each permission on each target.

ghost use Rattle.std.proofs.Common.{get_or};
ghost use Rattle.std.specs.Prelude.{◌≡◌, ◌<◌, ◌≤◌, ◌+◌, ◌*◌, ◌/◌, ◌&&◌, ℕ, All, IfOk, None, OnOk, false, length, nat_eq};
ghost use Rattle.sm_bits.specs.Bits.{has, has_bit};
ghost use Rattle.sm_rules.specs.Keeping.{FitsRule, covered_line, covers};
ghost use Rattle.sm_questions.specs.FirstLines.{AreNear, HasFound, IsTable, kept_line, line_in, place_in, rules_at};

use sm_bits::{SharedSet, has_bit};
use sm_rules::{Kept, PERM_COUNT, Rules};
use sm_types::TypeCount;
use sm_values::drop_fields;
use std::alloc::{AllocError, Global};

/// The number of sources in a block.
const BLOCK: usize = 64;

/// Keeps a line, unless there is one.
fn keep_line(lines: &mut [Option<u32>], i: usize, line: u32)
    requires { i < length lines.old }
    ensures room { length lines.new ≡ length lines.old }
    ensures kept { (j : ℕ) → get_or lines.new j None ≡ kept_line (nat_eq j i) line (get_or lines.old j None) }
{
    if lines[i].is_none() {
        lines[i] = Some(line);
    }
}

/// Keeps the line of a rule at each permission that it grants, for one type, unless an earlier rule grants it.
fn keep_type(lines: &mut [Option<u32>], rule: &Kept, number: usize)
    requires { 7 * number + 7 ≤ length lines.old }
    ensures room { length lines.new ≡ length lines.old }
    ensures kept { (b t : ℕ) → b < 7 → line_in lines.new b t
        ≡ kept_line (nat_eq t number && has_bit rule.now.perms.0 b) rule.now.line (line_in lines.old b t) }
{
    for bit in 0..PERM_COUNT {
        if has_bit(rule.perms.0, bit) {
            keep_line(lines, 7 * number + bit as usize, rule.line);
        }
    }
}

/// Keeps the line of a rule for all types of a set.
fn keep_types(lines: &mut [Option<u32>], rule: &Kept, set: &SharedSet, count: TypeCount)
    requires room { length lines.old ≡ 7 * count }
    requires set { length set.now ≡ count / 64 + 1 }
    requires past { (i : ℕ) → count ≤ i → has set.now i ≡ false }
    ensures room { length lines.new ≡ length lines.old }
    ensures kept { (b t : ℕ) → b < 7 → line_in lines.new b t
        ≡ kept_line (has set.now t && has_bit rule.now.perms.0 b) rule.now.line (line_in lines.old b t) }
{
    let mut from = 0;
    while let Some(number) = set.next(from) {
        keep_type(lines, rule, number);
        from = number + 1;
    }
}

/// Keeps the line of a rule for all targets on which it grants the source a permission.
fn keep_of_source(lines: &mut [Option<u32>], rule: &Kept, count: TypeCount, source: usize)
    requires room { length lines.old ≡ 7 * count }
    requires fits { FitsRule count rule.now }
    requires source { source < count }
    ensures room { length lines.new ≡ length lines.old }
    ensures kept { (b t : ℕ) → b < 7 → line_in lines.new b t
        ≡ kept_line (covers b source t rule.now) rule.now.line (line_in lines.old b t) }
{
    if !rule.sources.has(source) {
        return;
    }
    keep_types(lines, rule, &rule.targets, count);
    if rule.to_self {
        keep_type(lines, rule, source);
    }
}

/// Keeps the line of a rule for all sources that it grants a permission on the target.
fn keep_of_target(lines: &mut [Option<u32>], rule: &Kept, count: TypeCount, target: usize)
    requires room { length lines.old ≡ 7 * count }
    requires fits { FitsRule count rule.now }
    requires target { target < count }
    ensures room { length lines.new ≡ length lines.old }
    ensures kept { (b s : ℕ) → b < 7 → line_in lines.new b s
        ≡ kept_line (covers b s target rule.now) rule.now.line (line_in lines.old b s) }
{
    if rule.targets.has(target) {
        keep_types(lines, rule, &rule.sources, count);
    } else if rule.to_self && rule.sources.has(target) {
        keep_type(lines, rule, target);
    }
}

/// Removes all lines.
fn clear(lines: &mut [Option<u32>])
    ensures room { length lines.new ≡ length lines.old }
    ensures none { (j : ℕ) → get_or lines.new j None ≡ None }
{
    for i in 0..lines.len() {
        lines[i] = None;
    }
}

/// Finds the lines of a source among the rules near it.
fn find_lines(
    lines: &mut [Option<u32>],
    rules: &[Kept],
    near: &[usize],
    count: TypeCount,
    source: usize,
)
    requires room { length lines.old ≡ 7 * count }
    requires fits { All (FitsRule count) rules.now }
    requires near { All (λ i. i < length rules.now) near.now }
    requires source { source < count }
    ensures room { length lines.new ≡ length lines.old }
    ensures found { (b t : ℕ) → b < 7 → line_in lines.new b t ≡ covered_line (rules_at rules.now near.now) b source t }
{
    clear(lines);
    for index in near {
        keep_of_source(lines, &rules[*index], count, source);
    }
}

/// Finds the lines of all sources for one target.
fn find_sources(lines: &mut [Option<u32>], rules: &[Kept], count: TypeCount, target: usize)
    requires room { length lines.old ≡ 7 * count }
    requires fits { All (FitsRule count) rules.now }
    requires target { target < count }
    ensures room { length lines.new ≡ length lines.old }
    ensures found { (b s : ℕ) → b < 7 → line_in lines.new b s ≡ covered_line rules.now b s target }
{
    clear(lines);
    for rule in rules {
        keep_of_target(lines, rule, count, target);
    }
}

/// Returns the lines that a table begins with: of all sources for a single target, otherwise none.
fn first_lines(
    alloc: Global,
    rules: &Rules,
    targets: &[u16],
) -> Result<Vec<Option<u32>>, AllocError>
    requires { All (λ t. t < rules.now.count) targets.now }
    ensures room { IfOk result (λ l. length l.items ≡ 7 * rules.now.count) }
    ensures found { IfOk result (λ l. length targets.now ≡ 1 → (b s : ℕ) → b < 7
        → line_in l.items b s ≡ covered_line rules.now.allows b s (get_or targets.now 0 0)) }
{
    let count = rules.type_count();
    let mut lines = vec![in alloc; None; 7 * count.get()]?;
    if targets.len() != 1 {
        return Ok(lines);
    }
    find_sources(&mut lines, rules.allows(), count, usize::from(targets[0]));
    Ok(lines)
}

/// Returns whether a rule may have a source of the block.
fn is_near(rule: &Kept, count: TypeCount, from: usize, to: usize) -> bool
    requires fits { FitsRule count rule.now }
    ensures { result ≡ false → (s : ℕ) → from ≤ s → s < to → has rule.now.sources s ≡ false }
{
    match rule.sources.next(from) {
        Some(source) => source < to,
        None => false,
    }
}

/// Gathers the indexes of the rules that have a source of the block.
fn gather(
    near: &mut Vec<usize>,
    rules: &[Kept],
    count: TypeCount,
    from: usize,
    to: usize,
) -> Result<(), AllocError>
    requires fits { All (FitsRule count) rules.now }
    ensures { OnOk result (AreNear rules.now from to near.new.items) }
{
    near.clear();
    for i in 0..rules.len() {
        if is_near(&rules[i], count, from, to) {
            near.push(i)?;
        }
    }
    Ok(())
}

/// Lines of the first allow rules, seven for each type, one for each permission.
///
/// If there is only one target, they are those of all sources for it. Otherwise they are those of one source for all
/// targets: the sources are then taken in blocks, and of all rules only those are looked at that have a source of the
/// block.
pub struct LineTable<'a> {
    rules: &'a Rules,
    targets: &'a [u16],
    /// The indexes of the rules that have a source of the block.
    near: Vec<usize>,
    /// The number of the first source of the block.
    from: usize,
    /// The number of the first source behind the block.
    to: usize,
    lines: Vec<Option<u32>>,
}

impl<'a> Drop for LineTable<'a> {
    fn drop(self) {
        drop_fields!(self: rules, targets, near, from, to, lines);
    }
}

impl<'a> LineTable<'a> {
    /// Returns a table for the targets of these numbers.
    pub fn new(
        alloc: Global,
        rules: &'a Rules,
        targets: &'a [u16],
    ) -> Result<LineTable<'a>, AllocError>
        requires { All (λ t. t < rules.now.count) targets.now }
        ensures table { IfOk result (λ t. IsTable t) }
        ensures rules { IfOk result (λ t. t.rules.now ≡ rules.now) }
        ensures targets { IfOk result (λ t. t.targets.now ≡ targets.now) }
    {
        let lines = first_lines(alloc, rules, targets)?;
        Ok(LineTable {
            rules,
            targets,
            near: Vec::new(alloc),
            from: 0,
            to: 0,
            lines,
        })
    }

    /// Makes the block that of the source.
    fn come_near(&mut self, source: usize) -> Result<(), AllocError>
        requires source { source < self.old.rules.now.count }
        requires near { AreNear self.old.rules.now.allows self.old.from self.old.to self.old.near.items }
        ensures near { OnOk result (AreNear self.old.rules.now.allows self.new.from self.new.to self.new.near.items) }
        ensures there { OnOk result ((self.new.from ≤ source) × (source < self.new.to)) }
        ensures rules { self.new.rules.now ≡ self.old.rules.now }
        ensures targets { self.new.targets.now ≡ self.old.targets.now }
        ensures lines { self.new.lines.items ≡ self.old.lines.items }
    {
        if self.from <= source && source < self.to {
            return Ok(());
        }
        let count = self.rules.type_count();
        let allows = self.rules.allows();
        self.from = source - source % BLOCK;
        self.to = self.from + BLOCK;
        gather(&mut self.near, allows, count, self.from, self.to)
    }

    /// Finds the lines of a source for all types.
    fn find_all(&mut self, source: usize) -> Result<(), AllocError>
        requires source { source < self.old.rules.now.count }
        requires room { length self.old.lines.items ≡ 7 * self.old.rules.now.count }
        requires near { AreNear self.old.rules.now.allows self.old.from self.old.to self.old.near.items }
        ensures near { OnOk result (AreNear self.old.rules.now.allows self.new.from self.new.to self.new.near.items) }
        ensures room { OnOk result (length self.new.lines.items ≡ length self.old.lines.items) }
        ensures found { OnOk result ((b t : ℕ) → b < 7
            → line_in self.new.lines.items b t ≡ covered_line self.old.rules.now.allows b source t) }
        ensures rules { self.new.rules.now ≡ self.old.rules.now }
        ensures targets { self.new.targets.now ≡ self.old.targets.now }
    {
        let count = self.rules.type_count();
        let allows = self.rules.allows();
        self.come_near(source)?;
        find_lines(&mut self.lines, allows, &self.near, count, source);
        Ok(())
    }

    /// Finds the lines of a source.
    pub fn find(&mut self, source: usize) -> Result<(), AllocError>
        requires table { IsTable self.old }
        requires source { source < self.old.rules.now.count }
        ensures table { OnOk result (IsTable self.new) }
        ensures found { OnOk result
            (HasFound self.new.lines.items self.old.rules.now.allows self.old.targets.now source) }
        ensures rules { self.new.rules.now ≡ self.old.rules.now }
        ensures targets { self.new.targets.now ≡ self.old.targets.now }
    {
        if self.targets.len() == 1 {
            return Ok(());
        }
        self.find_all(source)?;
        Ok(())
    }

    /// Returns the numbers of the targets.
    pub fn targets(&self) -> &'a [u16]
        ensures { result.now ≡ self.now.targets.now }
    {
        self.targets
    }

    /// Returns the line of permission `bit` on two types, of which the source's lines have been found.
    pub fn line(&self, source: u16, target: u16, bit: u32) -> Option<u32>
        requires room { length self.now.lines.items ≡ 7 * self.now.rules.now.count }
        requires bit { bit < 7 }
        requires source { source < self.now.rules.now.count }
        requires target { target < self.now.rules.now.count }
        ensures { result ≡ line_in self.now.lines.items bit (place_in self.now.targets.now source target) }
    {
        let place = if self.targets.len() == 1 {
            source
        } else {
            target
        };
        self.lines[7 * usize::from(place) + bit as usize]
    }
}
