//! The answer to `svcmgr suggest`.

ghost use Rattle.std.specs.Prelude.{◌≡◌, ◌<◌, ◌≤◌, ◌+◌, ◌^◌, ◌&&◌, ◌++◌, [], ℕ, IfOk, OnOk, length, option_map, take};
ghost use Rattle.std.specs.Io.KnownBytes.{Appends};
ghost use Rattle.std.specs.List.{flat_map, list_all};
ghost use Rattle.sm_engine.specs.Counts.{Reports, failures_of, inner_of, greatest_count};
ghost use Rattle.sm_suggestions.specs.LogLines.{line_allowed, line_suggestions, long_count};
ghost use Rattle.sm_suggestions.specs.Names.{name_in};
ghost use Rattle.sm_suggestions.specs.Records.{records_of, skipped};
ghost use Rattle.sm_suggestions.specs.Tallying.{count_line, counted_all, total};
ghost use Rattle.sm_suggestions.specs.Rulings.{AreRulings};
ghost use Rattle.sm_suggestions.specs.Suggesting as spec;
ghost use Rattle.sm_suggestions.specs.declared.limits.TheConstants.{MOST_LOG_BYTES};

use crate::limits::{MOST_LINE_BYTES, MOST_LOG_BYTES};
use crate::log_words::words_of;
use crate::names::read_name;
use crate::records::{Record, record_of};
use crate::rulings::Rulings;
use crate::tally::Tally;
use crate::verdict::{Suggestion, suggestion_for};
use sm_contexts::Lines;
use sm_engine::{Counted, Fault, write_whole};
use sm_policy::Prepared;
use sm_rules::PERM_COUNT;
use sm_values::{drop_fields, push_numbered};
use std::alloc::{AllocError, Global};
use std::io::Write;

/// Returns whether both are so.
fn both(one: bool, other: bool) -> bool
    ensures { result ≡ (one && other) }
{
    one && other
}

/// What was found in the lines of a log that were read.
pub struct Findings {
    /// What rules say of the accesses.
    rulings: Rulings,
    /// The suggestions, each with the number of its records.
    tally: Tally,
    /// Whether rules grant all accesses.
    all_allowed: bool,
    /// The number of lines that are too long to be read.
    skipped: u32,
}

impl Drop for Findings {
    fn drop(self) {
        drop_fields!(self: rulings, tally, all_allowed, skipped);
    }
}

impl Findings {
    /// Adds the suggestion for a permission, if the record has it.
    #[tactic(auto, using(crate::proofs::Tables::total_once), unfolding(crate::specs::Suggesting::perm_suggestions, crate::specs::Suggesting::perm_allowed))]
    fn add_perm(
        &mut self,
        alloc: Global,
        policy: &Prepared,
        denial: &Record<'_, '_>,
        target: &[u8],
        name: Option<&[u8]>,
        bit: u32,
    ) -> Result<(), AllocError>
        requires bit { bit < 7 }
        requires few { total self.old.tally + 1 < 2 ^ 64 }
        requires name { option_map (λ n. n.now) name ≡ option_map name_in denial.now.name }
        requires target { target.now ≡ spec.target_in policy.now denial.now }
        requires rulings { AreRulings policy.now self.old.rulings.by_number.entries }
        ensures rulings { OnOk result (AreRulings policy.now self.new.rulings.by_number.entries) }
        ensures tally { OnOk result (self.new.tally
            ≡ counted_all self.old.tally (spec.perm_suggestions policy.now denial.now bit)) }
        ensures few { OnOk result (total self.new.tally ≤ total self.old.tally + 1) }
        ensures allowed { OnOk result (self.new.all_allowed
            ≡ (self.old.all_allowed && spec.perm_allowed policy.now denial.now bit)) }
        ensures skipped { self.new.skipped ≡ self.old.skipped }
    {
        if !denial.has_perm(bit) {
            return Ok(());
        }
        let Suggestion { text, is_allowed } = suggestion_for(
            alloc,
            policy,
            &mut self.rulings,
            denial.source.bytes(),
            target,
            name,
            bit,
        )?;
        self.all_allowed = both(self.all_allowed, is_allowed);
        self.tally.add(text)
    }

    /// Adds the suggestions for the accesses of a record, to the service of this name.
    #[tactic(auto, unfolding(crate::specs::Suggesting::record_suggestions, crate::specs::Suggesting::record_allowed))]
    fn add_perms(
        &mut self,
        alloc: Global,
        policy: &Prepared,
        denial: &Record<'_, '_>,
        target: &[u8],
        name: Option<&[u8]>,
    ) -> Result<(), AllocError>
        requires few { total self.old.tally + 7 < 2 ^ 64 }
        requires name { option_map (λ n. n.now) name ≡ option_map name_in denial.now.name }
        requires target { target.now ≡ spec.target_in policy.now denial.now }
        requires rulings { AreRulings policy.now self.old.rulings.by_number.entries }
        ensures rulings { OnOk result (AreRulings policy.now self.new.rulings.by_number.entries) }
        ensures tally { OnOk result (self.new.tally
            ≡ counted_all self.old.tally (spec.record_suggestions policy.now denial.now)) }
        ensures few { OnOk result (total self.new.tally ≤ total self.old.tally + 7) }
        ensures allowed { OnOk result (self.new.all_allowed
            ≡ (self.old.all_allowed && spec.record_allowed policy.now denial.now)) }
        ensures skipped { self.new.skipped ≡ self.old.skipped }
    {
        for bit in 0..PERM_COUNT {
            self.add_perm(alloc, policy, denial, target, name, bit)?;
        }
        Ok(())
    }

    /// Adds the suggestions for the accesses of a record.
    fn add_record(
        &mut self,
        alloc: Global,
        policy: &Prepared,
        denial: &Record<'_, '_>,
    ) -> Result<(), AllocError>
        requires few { total self.old.tally + 7 < 2 ^ 64 }
        requires rulings { AreRulings policy.now self.old.rulings.by_number.entries }
        ensures rulings { OnOk result (AreRulings policy.now self.new.rulings.by_number.entries) }
        ensures tally { OnOk result (self.new.tally
            ≡ counted_all self.old.tally (spec.record_suggestions policy.now denial.now)) }
        ensures few { OnOk result (total self.new.tally ≤ total self.old.tally + 7) }
        ensures allowed { OnOk result (self.new.all_allowed
            ≡ (self.old.all_allowed && spec.record_allowed policy.now denial.now)) }
        ensures skipped { self.new.skipped ≡ self.old.skipped }
    {
        match &denial.name {
            Some(word) => {
                let name = read_name(alloc, word.bytes())?;
                let target = policy.label(&name).type_name();
                self.add_perms(alloc, policy, denial, target, Some(&name))
            }
            None => self.add_perms(alloc, policy, denial, denial.target.bytes(), None),
        }
    }

    /// Adds what a line of the log has.
    fn add_line(&mut self, alloc: Global, policy: &Prepared, line: &[u8]) -> Result<(), AllocError>
        requires few { total self.old.tally + 7 < 2 ^ 64 }
        requires skipped { self.old.skipped + 1 < 2 ^ 32 }
        requires rulings { AreRulings policy.now self.old.rulings.by_number.entries }
        ensures rulings { OnOk result (AreRulings policy.now self.new.rulings.by_number.entries) }
        ensures tally { OnOk result (self.new.tally
            ≡ counted_all self.old.tally (line_suggestions policy.now line.now)) }
        ensures few { OnOk result (total self.new.tally ≤ total self.old.tally + 7) }
        ensures allowed { OnOk result (self.new.all_allowed
            ≡ (self.old.all_allowed && line_allowed policy.now line.now)) }
        ensures skipped { OnOk result (self.new.skipped ≡ self.old.skipped + long_count line.now) }
    {
        if line.len() > MOST_LINE_BYTES {
            self.skipped += 1;
            return Ok(());
        }
        let words = words_of(alloc, line)?;
        match record_of(&words) {
            Some(denial) => self.add_record(alloc, policy, &denial),
            None => Ok(()),
        }
    }
}

/// Returns what is found in a log.
#[tactic(auto, unfolding(crate::specs::Records::records_of, crate::specs::Records::skipped))]
fn read_log(alloc: Global, policy: &Prepared, log: &[u8]) -> Result<Findings, AllocError>
    requires { length log.now ≤ MOST_LOG_BYTES }
    ensures tally { IfOk result (λ found. found.tally
        ≡ counted_all [] (spec.suggestions policy.now (records_of log.now))) }
    ensures allowed { IfOk result (λ found. found.all_allowed
        ≡ list_all (spec.record_allowed policy.now) (records_of log.now)) }
    ensures skipped { IfOk result (λ found. found.skipped ≡ skipped log.now) }
{
    let mut found = Findings {
        rulings: Rulings::new(alloc),
        tally: Tally::new(alloc),
        all_allowed: true,
        skipped: 0,
    };
    let mut lines = Lines::new(log);
    'lines: while let Some(line) = lines.take() {
        found.add_line(alloc, policy, line)?;
    }
    Ok(found)
}

/// Returns the lines for what was found.
fn found_lines(alloc: Global, found: &Findings) -> Result<Vec<u8>, AllocError>
    ensures { IfOk result (λ text. text.items
        ≡ flat_map count_line found.now.tally ++ spec.skipped_line found.now.skipped) }
{
    let mut text = found.tally.lines(alloc)?;
    if found.skipped > 0 {
        push_numbered(&mut text, b"skipped ", u64::from(found.skipped))?;
        text.extend_from_slice(b"\n")?;
    }
    Ok(text)
}

/// Writes what the policy says now of each access that a log says was denied.
///
/// A line of the log has a record if the words `avc:`, `denied`, `{`, permissions and `}` are among its words in this
/// order, and behind them once each `scontext=CONTEXT`, `tcontext=CONTEXT` and `tclass=CLASS`, and at most once
/// `name=NAME`. Each permission of the class is an access, whose target is the type of the name's label if there is a
/// name. There is one line for each access, in the order in which they come first, with the number of its records:
///
/// - `unknown WORD SOURCE TARGET CLASS PERM COUNT`: no type is called WORD;
/// - `allowed LINE ..`: the allow rule of this line grants it;
/// - `forbidden LINE ..`: the neverallow rule of this line covers it;
/// - `default NAME ..`: the name has no key of its own;
/// - `missing ..`: no rule grants it.
///
/// A last line `skipped COUNT` has the number of lines of more than [`MOST_LINE_BYTES`], if there are any. Returns
/// whether all accesses are allowed and no line was skipped.
///
/// # Errors
///
/// `WriteFault` if a write fails; a prefix of the lines is then written. `Memory` if an allocation fails; nothing is
/// then written.
#[tactic(auto, using(crate::proofs::Counting::counts_are), unfolding(crate::specs::Suggesting::suggestion_lines, crate::specs::Suggesting::all_allowed))]
pub fn suggest<W: Write>(
    alloc: Global,
    policy: &Prepared,
    log: &[u8],
    writer: &mut Counted<W>,
) -> Result<bool, Fault>
    requires count { failures_of writer.old < greatest_count }
    requires size { length log.now ≤ MOST_LOG_BYTES }
    ensures allowed { IfOk result (λ allowed. allowed ≡ spec.all_allowed policy.now log.now) }
    ensures written { OnOk result (Appends (W.contents (inner_of writer.old)) (W.contents (inner_of writer.new))
        (spec.suggestion_lines policy.now log.now)) }
    ensures front { result ≡ Err Fault.WriteFault → (n : ℕ)
        × Appends (W.contents (inner_of writer.old)) (W.contents (inner_of writer.new))
        (take n (spec.suggestion_lines policy.now log.now)) }
    ensures unwritten { result ≡ Err Fault.Memory → writer.new ≡ writer.old }
    ensures reports { Reports result writer.old writer.new }
{
    let found = read_log(alloc, policy, log)?;
    let text = found_lines(alloc, &found)?;
    write_whole(writer, &text)?;
    Ok(found.all_allowed && found.skipped == 0)
}
