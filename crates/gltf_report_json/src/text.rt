//! A report as JSON, with what the document holds.
ghost use Rattle.std.specs.Prelude.{◌≡◌, [], ◌∷◌, ◌++◌, List, true, false, OnOk, IfOk};
ghost use Rattle.std.specs.Prelude.{option_map, string_bytes};
ghost use Rattle.json.specs.Token.{Token as SpecToken, begin_array, end_array};
ghost use Rattle.gltf_report_json.specs.Reported.{message_tokens, AreMessages, issues_tokens};
ghost use Rattle.gltf_report_json.specs.Reported.{count_members, IsReport, IsReportText};

use crate::info::take_info;
use crate::tokens::{TakesTokens, take_flag, take_number, take_text};
use gltf_findings::code::{Code, Severity};
use gltf_findings::report::Report;
use gltf_json::root::Root;
use gltf_messages::told::Told;
use json::{Pretty, Token, Writer};
use serde_json::Value;
use std::alloc::{AllocError, Global};

/// The report as JSON, in the layout of the Khronos validator, and under `info` what the document
/// holds, where there is one. On one line, or on several where it is to be pretty. `value` is the
/// JSON value of the file, where the messages are to say which kinds it has.
pub fn report_text(
    alloc: Global,
    name: &str,
    report: &Report,
    root: Option<&Root>,
    value: Option<&Value>,
    is_pretty: bool,
) -> Result<String, AllocError>
    ensures { IfOk result (λ text. IsReportText is_pretty name.now report.now
        (option_map (λ r. r.now) root.entry) (string_bytes text)) }
{
    if is_pretty {
        pretty_text(alloc, name, report, root, value)
    } else {
        compact_text(alloc, name, report, root, value)
    }
}

fn compact_text(
    alloc: Global,
    name: &str,
    report: &Report,
    root: Option<&Root>,
    value: Option<&Value>,
) -> Result<String, AllocError>
    ensures { IfOk result (λ text. IsReportText false name.now report.now
        (option_map (λ r. r.now) root.entry) (string_bytes text)) }
{
    let mut out = Writer::new(Vec::new(alloc));
    take_report(alloc, name, report, root, value, &mut out)?;
    // What a writer gives is proved to be UTF-8.
    Ok(unsafe { String::from_utf8_unchecked(out.into_inner()) })
}

fn pretty_text(
    alloc: Global,
    name: &str,
    report: &Report,
    root: Option<&Root>,
    value: Option<&Value>,
) -> Result<String, AllocError>
    ensures { IfOk result (λ text. IsReportText true name.now report.now
        (option_map (λ r. r.now) root.entry) (string_bytes text)) }
{
    let mut out = Pretty::new(alloc);
    take_report(alloc, name, report, root, value, &mut out)?;
    // What a writer gives is proved to be UTF-8.
    Ok(unsafe { String::from_utf8_unchecked(out.into_inner()) })
}

/// The report, with the members of each object in the order of their names. It has the tokens of
/// the tree of [`Report::to_json`] with `info` and the messages put in, which is never made.
fn take_report<W: TakesTokens>(
    alloc: Global,
    name: &str,
    report: &Report,
    root: Option<&Root>,
    value: Option<&Value>,
    out: &mut W,
) -> Result<(), AllocError>
    ensures taken { OnOk result ((tokens : List SpecToken)
        × IsReport name.now report.now (option_map (λ r. r.now) root.entry) tokens
        × (W.taken out.new ≡ W.taken out.old ++ tokens)) }
    ensures before { W.before out.new ≡ W.before out.old }
{
    out.take(Token::BeginObject)?;
    take_info(root, out)?;
    out.take(Token::Key("issues"))?;
    take_issues(alloc, report, root, value, out)?;
    take_text("uri", name, out)?;
    take_text("validatorVersion", "gltf_inspect 1", out)?;
    out.take(Token::EndObject)?;
    Ok(())
}

fn take_issues<W: TakesTokens>(
    alloc: Global,
    report: &Report,
    root: Option<&Root>,
    value: Option<&Value>,
    out: &mut W,
) -> Result<(), AllocError>
    ensures taken { OnOk result ((messages : List SpecToken)
        × AreMessages report.now messages
        × (W.taken out.new ≡ W.taken out.old ++ issues_tokens report.now messages)) }
    ensures before { W.before out.new ≡ W.before out.old }
{
    out.take(Token::BeginObject)?;
    out.take(Token::Key("messages"))?;
    take_messages(alloc, report, root, value, out)?;
    take_counts(report, out)?;
    take_flag("truncated", false, out)?;
    out.take(Token::EndObject)?;
    Ok(())
}

/// How many findings of each severity there are.
fn take_counts<W: TakesTokens>(report: &Report, out: &mut W) -> Result<(), AllocError>
    ensures taken { OnOk result (W.taken out.new ≡ W.taken out.old ++ count_members report.now) }
    ensures before { W.before out.new ≡ W.before out.old }
{
    take_number("numErrors", report.count(Severity::Error) as u64, out)?;
    take_number("numHints", report.count(Severity::Hint) as u64, out)?;
    take_number("numInfos", report.count(Severity::Information) as u64, out)?;
    take_number("numWarnings", report.count(Severity::Warning) as u64, out)?;
    Ok(())
}

/// The list of the messages, each made once, in rooms that are used again.
fn take_messages<W: TakesTokens>(
    alloc: Global,
    report: &Report,
    root: Option<&Root>,
    value: Option<&Value>,
    out: &mut W,
) -> Result<(), AllocError>
    ensures taken { OnOk result ((messages : List SpecToken)
        × AreMessages report.now messages
        × (W.taken out.new
        ≡ W.taken out.old ++ begin_array ∷ (messages ++ end_array ∷ []))) }
    ensures before { W.before out.new ≡ W.before out.old }
{
    let mut told = Told::new(alloc);
    out.take(Token::BeginArray)?;
    for finding in report.findings() {
        told.tell(alloc, root, value, finding)?;
        take_message(finding.1, &told, out)?;
    }
    out.take(Token::EndArray)
}

fn take_message<W: TakesTokens>(code: Code, told: &Told, out: &mut W) -> Result<(), AllocError>
    ensures taken { OnOk result (W.taken out.new
        ≡ W.taken out.old ++ message_tokens code told.now.0 told.now.1) }
    ensures before { W.before out.new ≡ W.before out.old }
{
    out.take(Token::BeginObject)?;
    take_text("code", code.name(), out)?;
    take_text("message", told.says(), out)?;
    take_text("pointer", told.pointer(), out)?;
    take_number("severity", code.severity().number(), out)?;
    out.take(Token::EndObject)?;
    Ok(())
}
