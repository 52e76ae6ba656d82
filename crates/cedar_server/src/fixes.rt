//! Edits that mend a fault.
ghost use Rattle.std.specs.Prelude.{◌≡◌, ◌↔◌, IfOk, IsTrue, MatchBool, MatchOption, OnOk};
ghost use Rattle.cedar_server.specs.Inside.Offers.{Offers};
ghost use Rattle.cedar_server.specs.Fixes.{AreFixes, AreFixesIn, Fails, HasNoFix, IsFix, IsPart, Mends, faults_before, meant_by, touches};

use crate::diagnoses::{Diagnosis, MOST, tell};
use cedar_edits::{Encoding, Range, offset_at};
use cedar_faults::fault::Fault;
use cedar_faults::listing::first_faults;
use cedar_faults::samples::sample;
use cedar_faults::tips::Tip;
use cedar_tokens::kind::Kind;
use cedar_tokens::token::Span;
use std::alloc::{AllocError, Global};

/// An edit that mends a fault: a token of this kind in place of what the fault is about.
#[derive(Drop)]
pub struct Fix {
    /// The fault. Its range is what is replaced.
    pub diagnosis: Diagnosis,
    /// The kind of the token, whose text is fixed.
    pub kind: Kind,
}

/// The fixes for those of the first hundred faults that a range touches, in order. There is one for each fault whose tip names a token, if the text
/// with this edit has no more faults through this token than it had before the fault.
pub fn find_fixes(
    alloc: Global,
    text: &str,
    range: Range,
    encoding: Encoding,
) -> Result<Vec<Fix>, AllocError>
    ensures { IfOk result (λ fixes. AreFixes encoding text.now range fixes.items) }
{
    let touched = Span {
        start: offset_at(text, range.start, encoding),
        end: offset_at(text, range.end, encoding),
    };
    let faults = first_faults(alloc, text, MOST)?;
    fixes_in(alloc, text, touched, &faults, encoding)
}

// The fixes of those of the text's faults that touch a part.
fn fixes_in(
    alloc: Global,
    text: &str,
    touched: Span,
    faults: &[Fault<'_>],
    encoding: Encoding,
) -> Result<Vec<Fix>, AllocError>
    ensures { IfOk result (λ fixes. AreFixesIn encoding text.now touched faults.now faults.now fixes.items) }
{
    let mut fixes = Vec::new(alloc);
    for fault in faults {
        offer(alloc, text, touched, faults, fault, encoding, &mut fixes)?;
    }
    Ok(fixes)
}

// Adds the fix of one of the text's faults, if it touches a part and has one.
fn offer(
    alloc: Global,
    text: &str,
    touched: Span,
    faults: &[Fault<'_>],
    fault: &Fault<'_>,
    encoding: Encoding,
    fixes: &mut Vec<Fix>,
) -> Result<(), AllocError>
    ensures { OnOk result (Offers encoding text.now touched faults.now fault.now fixes.old.items fixes.new.items) }
{
    if !touches(fault.part, touched) {
        return Ok(());
    }
    match fix_of(alloc, text, faults, fault, encoding)? {
        Some(fix) => {
            fixes.push(fix)?;
            Ok(())
        }
        None => Ok(()),
    }
}

// Whether two parts of a text have a byte in common, or one begins where the other ends.
fn touches(a: Span, b: Span) -> bool
    ensures { result ≡ touches a b }
{
    a.start <= b.end && b.start <= a.end
}

// The fix of one of the text's faults.
fn fix_of(
    alloc: Global,
    text: &str,
    faults: &[Fault<'_>],
    fault: &Fault<'_>,
    encoding: Encoding,
) -> Result<Option<Fix>, AllocError>
    ensures { IfOk result (λ fix. MatchOption fix (HasNoFix text.now faults.now fault.now) (IsFix encoding text.now faults.now fault.now)) }
{
    let Some(kind) = meant_by(fault.tip()) else {
        return Ok(None);
    };
    if !is_part(text, fault.part) {
        return Ok(None);
    }
    let is_mended = mends(alloc, text, faults, fault.part, kind)?;
    if !is_mended {
        return Ok(None);
    }
    let diagnosis = tell(alloc, text, fault, encoding)?;
    Ok(Some(Fix { diagnosis, kind }))
}

// The kind of the token that a tip names.
fn meant_by(tip: Option<Tip>) -> Option<Kind>
    ensures { result ≡ meant_by tip }
{
    match tip {
        Some(Tip::Meant(kind)) => Some(kind),
        _ => None,
    }
}

// Whether a part of the text begins and ends between characters.
fn is_part(text: &str, part: Span) -> bool
    ensures { IsTrue result ↔ IsPart text.now part }
{
    text.is_char_boundary(part.start) && text.is_char_boundary(part.end)
}

// Whether a token of this kind in place of a part mends the fault there, one of these of the text.
fn mends(
    alloc: Global,
    text: &str,
    old: &[Fault<'_>],
    part: Span,
    kind: Kind,
) -> Result<bool, AllocError>
    requires { IsPart text.now part }
    ensures { IfOk result (λ mends. MatchBool mends (Mends text.now old.now part kind) (Fails text.now old.now part kind)) }
{
    let before = &text[..part.start];
    let after = &text[part.end..];
    let token = sample(kind);
    let mended = format!(in alloc; "{before}{token}{after}")?;
    let end = before.len() + token.len();
    let new = first_faults(alloc, mended.as_str(), MOST)?;
    Ok(faults_before(&new, end) == faults_before(old, part.start))
}

// How many of the faults have their place before a byte.
fn faults_before(faults: &[Fault<'_>], at: usize) -> usize
    ensures { result ≡ faults_before at faults.now }
{
    faults.iter().filter(|fault| fault.expected.at < at).count()
}
