//! A report as one page of HTML, which links to nothing.
use crate::layout::{HEAD, TAIL};
use crate::picture::{add_number, picture};
use crate::tables::{PARTS, table};
use gltf::buffer::Data;
use gltf::{Document, Error};
use gltf_findings::code::Severity;
use gltf_findings::report::Report;
use gltf_html::escape::{add_data, add_text};
use gltf_json::root::Root;
use gltf_messages::told::Told;
use gltf_shared::lent;
use serde_json::Value;
use std::alloc::{AllocError, Global};

/// The page: the number of findings of each severity, a table of all findings, errors first, the
/// tables of what the document holds, and a picture of its scene, which turns with the mouse. A
/// file that is refused has the first two alone, and why it holds no document, where it holds none.
/// `value` is the JSON value of the file, where the messages are to say which kinds it has. Fails
/// where there is no memory.
pub fn page(
    alloc: Global,
    name: &str,
    report: &Report,
    cause: Option<&Error>,
    imported: Option<(&Document, &[Data])>,
    value: Option<&Value>,
) -> Result<Vec<u8>, AllocError> {
    match imported {
        Some((document, buffers)) => {
            let lent = lent(alloc, buffers)?;
            let imported = Some((document, lent.as_slice()));
            lent_page(alloc, name, report, cause, imported, value)
        }
        None => lent_page(alloc, name, report, cause, None, value),
    }
}

/// The same page, over bytes of buffers that are lent.
pub fn lent_page(
    alloc: Global,
    name: &str,
    report: &Report,
    cause: Option<&Error>,
    imported: Option<(&Document, &[&[u8]])>,
    value: Option<&Value>,
) -> Result<Vec<u8>, AllocError> {
    let mut html = Vec::new(alloc);
    add_page(alloc, name, report, cause, imported, value, &mut html)?;
    Ok(html)
}

fn add_page(
    alloc: Global,
    name: &str,
    report: &Report,
    cause: Option<&Error>,
    imported: Option<(&Document, &[&[u8]])>,
    value: Option<&Value>,
    html: &mut Vec<u8>,
) -> Result<(), AllocError> {
    add(html, HEAD)?;
    add_heading(name, report, html)?;
    let root = match imported {
        Some((document, _buffers)) => Some(document.as_json()),
        None => None,
    };
    add_findings(alloc, report, root, value, html)?;
    if let Some(cause) = cause {
        add_cause(alloc, cause, html)?;
    }
    match imported {
        Some((document, buffers)) => {
            add_tables(alloc, document.as_json(), html)?;
            let data = picture(alloc, document, buffers)?;
            add_script(data.as_slice(), html)?;
        }
        None => add_script(b"null", html)?,
    }
    add(html, TAIL)
}

fn add_cause(alloc: Global, cause: &Error, html: &mut Vec<u8>) -> Result<(), AllocError> {
    let text = format!(in alloc; "refused: {cause}")?;
    add(html, "<p>")?;
    add_text(html, text.as_str().as_bytes())?;
    add(html, "</p>\n")
}

fn add_tables(alloc: Global, root: &Root, html: &mut Vec<u8>) -> Result<(), AllocError> {
    for part in &PARTS {
        table(alloc, root, *part)?.add_html(html)?;
    }
    Ok(())
}

fn add_script(data: &[u8], html: &mut Vec<u8>) -> Result<(), AllocError> {
    add(html, "<script type=\"application/json\" id=\"data\">")?;
    add_data(html, data)?;
    add(html, "</script>\n")
}

fn add(html: &mut Vec<u8>, text: &str) -> Result<(), AllocError> {
    html.extend_from_slice(text.as_bytes())?;
    Ok(())
}

fn add_heading(name: &str, report: &Report, html: &mut Vec<u8>) -> Result<(), AllocError> {
    add(html, "<title>")?;
    add_text(html, name.as_bytes())?;
    add(html, " - glTF report</title>\n<h1>")?;
    add_text(html, name.as_bytes())?;
    add(html, "</h1>\n")?;
    add_count(report, Severity::Error, "<p>errors: ", html)?;
    add_count(report, Severity::Warning, ", warnings: ", html)?;
    add_count(report, Severity::Information, ", infos: ", html)?;
    add_count(report, Severity::Hint, ", hints: ", html)?;
    add(html, "</p>\n")?;
    add(
        html,
        "<canvas id=\"picture\" hidden></canvas>\n<p id=\"note\"></p>\n",
    )
}

fn add_count(
    report: &Report,
    severity: Severity,
    before: &str,
    html: &mut Vec<u8>,
) -> Result<(), AllocError> {
    add(html, before)?;
    add_number(report.count(severity) as u64, html)
}

fn add_findings(
    alloc: Global,
    report: &Report,
    root: Option<&Root>,
    value: Option<&Value>,
    html: &mut Vec<u8>,
) -> Result<(), AllocError> {
    add(html, "<h2>FINDINGS</h2>\n")?;
    if report.findings().is_empty() {
        return add(html, "<p>none</p>\n");
    }
    add(html, "<table><tr><th>severity<th>code<th>place<th>says")?;
    add_rows(alloc, report, root, value, Severity::Error, html)?;
    add_rows(alloc, report, root, value, Severity::Warning, html)?;
    add_rows(alloc, report, root, value, Severity::Information, html)?;
    add_rows(alloc, report, root, value, Severity::Hint, html)?;
    add(html, "\n</table>\n")
}

fn add_rows(
    alloc: Global,
    report: &Report,
    root: Option<&Root>,
    value: Option<&Value>,
    severity: Severity,
    html: &mut Vec<u8>,
) -> Result<(), AllocError> {
    let mut told = Told::new(alloc);
    for finding in report.findings() {
        let code = finding.1;
        if code.severity().is(severity) {
            told.tell(alloc, root, value, finding)?;
            add(html, "\n<tr><td class=\"")?;
            add(html, severity.name())?;
            add(html, "\">")?;
            add(html, severity.name())?;
            add(html, "<td>")?;
            add(html, code.name())?;
            add(html, "<td>")?;
            add_text(html, told.shown_pointer().as_bytes())?;
            add(html, "<td>")?;
            add_text(html, told.says().as_bytes())?;
        }
    }
    Ok(())
}
