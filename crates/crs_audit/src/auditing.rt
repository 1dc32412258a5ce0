// The audit of an output.
ghost use Rattle.std.specs.Prelude.{◌≡◌, ◌<◌, ◌+◌, ◌-◌, ◌^◌, IfOk, IfErr, if◌then◌else◌, map, vec_items};
ghost use Rattle.crs_base.specs.SeenLines.{line_seen};
ghost use Rattle.crs_audit.specs.JudgedClaims.{CanJudge};
ghost use Rattle.crs_audit.specs.Telling.{TellsLine, TellsClaims, TellsFault};
ghost use Rattle.crs_audit.specs.LogTexts.{GainsOnlyOf};
ghost use Rattle.crs_audit.specs.Audited.{CanAudit, IsAuditedAs, IsRefusedAs};

use crate::claims::{Said, read_claim};
use crate::judging::{Ground, judge};
use crate::taking::read_log;
use crate::words::{AuditRefused, AuditWord};
use crs_base::{RawLine, Symbols, first_line, line_bytes};
use crs_model::Plans;
use std::alloc::{AllocError, Global};
use std::collections::BTreeSet;

/// Whether a line is a claim, and what is wrong with it.
fn judge_line(
    alloc: Global,
    ground: &Ground<'_>,
    noted: &mut BTreeSet<Vec<u32>>,
    line: RawLine<'_>,
) -> Result<(bool, Option<AuditWord>), AllocError>
    requires { CanJudge ground.now.plans.now.plans ground.now.symbols.now.texts ground.now.log.now }
    ensures { IfOk result (TellsLine ground.now.plans.now.plans ground.now.symbols.now.texts ground.now.log.now (map vec_items noted.old.keys) (map vec_items noted.new.keys) (line_seen line.entry)) }
{
    match read_claim(alloc, line)? {
        Said::Other => Ok((false, None)),
        Said::Formless => Ok((true, Some(AuditWord::Form))),
        Said::Claims(claim) => Ok((true, judge(alloc, ground, noted, line_bytes(line), &claim)?)),
    }
}

/// One more, where the line is a claim.
fn claims_on(claims: u64, is_claim: bool) -> u64
    requires { claims < 2 ^ 64 - 1 }
    ensures { result ≡ (if is_claim then claims + 1 else claims) }
{
    if is_claim { claims + 1 } else { claims }
}

/// The number of claims, where nothing is wrong with any.
fn judge_all(alloc: Global, ground: &Ground<'_>, output: &[u8]) -> Result<u64, AuditRefused>
    requires { CanJudge ground.now.plans.now.plans ground.now.symbols.now.texts ground.now.log.now }
    ensures ok { IfOk result (TellsClaims ground.now.plans.now.plans ground.now.symbols.now.texts ground.now.log.now output.now) }
    ensures refused { IfErr result (TellsFault ground.now.plans.now.plans ground.now.symbols.now.texts ground.now.log.now output.now) }
{
    let mut noted = BTreeSet::new(alloc);
    let mut claims: u64 = 0;
    let mut number: u64 = 0;
    let mut rest = output;
    while !rest.is_empty() {
        let (line, behind) = first_line(rest);
        number += 1;
        let (is_claim, verdict) = judge_line(alloc, ground, &mut noted, line)?;
        if let Some(word) = verdict {
            return Err(AuditRefused::At { line: number, word });
        }
        claims = claims_on(claims, is_claim);
        rest = behind;
    }
    Ok(claims)
}

/// Checks each claim of the output by the models and the log, of which at most so many entries are
/// accepted. The answer is how many claims there are, or the first faulty one with the first word
/// that applies. After every answer the table has gained only arguments and values of events of the
/// log.
pub fn audit(
    alloc: Global,
    plans: &Plans,
    symbols: &mut Symbols,
    entries: u32,
    log: &[u8],
    output: &[u8],
) -> Result<u64, AuditRefused>
    requires { CanAudit plans.now symbols.old }
    ensures ok { IfOk result (IsAuditedAs plans.now entries symbols.old log.now output.now) }
    ensures refused { IfErr result (IsRefusedAs plans.now entries symbols.old log.now output.now) }
    ensures gained { GainsOnlyOf log.now symbols.old symbols.new }
{
    let log = read_log(alloc, &plans.names, entries, symbols, log)?;
    let ground = Ground {
        plans,
        symbols,
        log: &log,
    };
    judge_all(alloc, &ground, output)
}
