//! The verdict on a policy, on standard output.

use crate::pipe::Pipe;
use crate::text_of;
use sm_command::{Ending, Options};
use sm_engine::{Counted, Fault};
use sm_questions::{all_shown_lines, check, check_all, shown_lines};
use std::alloc::AllocError;
use std::io::Write;
use std::process::ExitCode;

/// Prints whether a policy is accepted, and where `show` is set the statements and lines that a refusal names, on
/// standard error.
pub fn check_policy<'a>(
    rt: &HostRuntime,
    options: &Options<'a>,
    show: bool,
) -> Result<ExitCode, Ending<'a>> {
    let rules = text_of(rt, options.rules)?;
    let contexts = text_of(rt, options.contexts)?;
    let mut writer = Counted::new(rt.stdout());
    match check(rt.alloc(), &rules, &contexts, &mut writer)? {
        None => Ok(ExitCode::SUCCESS),
        Some(fault) if show => show_lines(
            rt,
            shown_lines(
                rt.alloc(),
                options.rules.as_bytes(),
                &rules,
                options.contexts.as_bytes(),
                &contexts,
                &fault,
            ),
        ),
        Some(_) => Ok(ExitCode::FAILURE),
    }
}

/// Like `check_policy`, with all broken neverallow rules. Where nobody reads on, nothing more is printed.
pub fn check_rules<'a>(
    rt: &HostRuntime,
    options: &Options<'a>,
    show: bool,
) -> Result<ExitCode, Ending<'a>> {
    let rules = text_of(rt, options.rules)?;
    let contexts = text_of(rt, options.contexts)?;
    let mut writer = Counted::new(Pipe::new(rt.stdout()));
    let judged = check_all(rt.alloc(), &rules, &contexts, &mut writer);
    let is_closed = writer.into_inner().is_closed();
    match judged {
        Ok(None) => Ok(ExitCode::SUCCESS),
        Ok(Some(fault)) if show => show_lines(
            rt,
            all_shown_lines(
                rt.alloc(),
                options.rules.as_bytes(),
                &rules,
                options.contexts.as_bytes(),
                &contexts,
                &fault,
            ),
        ),
        Ok(Some(_)) => Ok(ExitCode::FAILURE),
        Err(Fault::WriteFault) if is_closed => Ok(ExitCode::FAILURE),
        Err(fault) => Err(Ending::from(fault)),
    }
}

fn show_lines<'a>(
    rt: &HostRuntime,
    shown: Result<Vec<u8>, AllocError>,
) -> Result<ExitCode, Ending<'a>> {
    let Ok(lines) = shown else {
        return Err(Ending::Memory);
    };
    // A failure can't be reported anywhere else.
    let _ = rt.stderr().write_all(&lines);
    Ok(ExitCode::FAILURE)
}
