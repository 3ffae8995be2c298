//! The versions of an asset (glTF 2.0, sections 3.2 and 5.9).
ghost use Rattle.std.specs.Prelude.{◌≡◌, ◌≤◌, OnOk, length, string_bytes};
ghost use Rattle.gltf_validation.specs.Locations.{places_of};
ghost use Rattle.gltf_findings.specs.Checks.{told_after, optional_checks};
ghost use Rattle.gltf_inspect.specs.Versions.{is_digit, digits_in_front, major_of, minor_of};
ghost use Rattle.gltf_inspect.specs.Versions.{is_version, significant, is_two, first_greater};
ghost use Rattle.gltf_inspect.specs.Versions.{digits_greater, is_greater, is_later};
ghost use Rattle.gltf_inspect.specs.Versions.{version_checks, min_version_checks, asset_checks};

use gltf_findings::code::Code;
use gltf_findings::findings::Findings;
use gltf_json_scene::asset::Asset;
use gltf_validation::location::Location;
use std::alloc::AllocError;

/// Reports what is found in the versions of an asset.
pub(crate) fn tell_asset(
    asset: &Asset,
    location: &Location<'_>,
    findings: &mut Findings,
) -> Result<(), AllocError>
    ensures { OnOk result (findings.new ≡ told_after findings.old (places_of location.now)
        (asset_checks asset.now)) }
{
    let version = asset.version.as_str().as_bytes();
    tell_version(version, &Location::Member(location, "version"), findings)?;
    let least = Location::Member(location, "minVersion");
    tell_least(version, &asset.min_version, &least, findings)
}

fn tell_least(
    version: &[u8],
    least: &Option<String>,
    location: &Location<'_>,
    findings: &mut Findings,
) -> Result<(), AllocError>
    ensures { OnOk result (findings.new ≡ told_after findings.old (places_of location.now)
        (optional_checks (λ t. min_version_checks version.now (string_bytes t)) least.now)) }
{
    match least {
        None => Ok(()),
        Some(least) => tell_min_version(version, least.as_str().as_bytes(), location, findings),
    }
}

fn tell_version(
    version: &[u8],
    location: &Location<'_>,
    findings: &mut Findings,
) -> Result<(), AllocError>
    ensures { OnOk result (findings.new ≡ told_after findings.old (places_of location.now)
        (version_checks version.now)) }
{
    let has_form = is_version(version);
    findings.tell(has_form, Code::PatternMismatch, location)?;
    let is_known = !has_form || is_two(major_of(version));
    findings.tell(is_known, Code::UnknownMajorVersion, location)
}

fn tell_min_version(
    version: &[u8],
    least: &[u8],
    location: &Location<'_>,
    findings: &mut Findings,
) -> Result<(), AllocError>
    ensures { OnOk result (findings.new ≡ told_after findings.old (places_of location.now)
        (min_version_checks version.now least.now)) }
{
    let has_form = is_version(least);
    findings.tell(has_form, Code::PatternMismatch, location)?;
    let is_past = has_form && is_version(version) && is_later(least, version);
    findings.tell(!is_past, Code::MinVersionGreaterThanVersion, location)
}

fn is_digit(byte: u8) -> bool
    ensures { result ≡ is_digit byte }
{
    byte >= 48 && byte < 58
}

fn digits_in_front(text: &[u8]) -> usize
    ensures count { result ≡ digits_in_front text.now }
    ensures within { result ≤ length text.now }
{
    for (i, byte) in text.iter().enumerate() {
        if !is_digit(*byte) {
            return i;
        }
    }
    text.len()
}

fn major_of(text: &[u8]) -> &[u8]
    ensures { result.now ≡ major_of text.now }
{
    &text[..digits_in_front(text)]
}

fn minor_of(text: &[u8]) -> &[u8]
    ensures { result.now ≡ minor_of text.now }
{
    let count = digits_in_front(text);
    if count < text.len() {
        &text[count + 1..]
    } else {
        &text[text.len()..]
    }
}

fn is_version(text: &[u8]) -> bool
    ensures { result ≡ is_version text.now }
{
    let count = digits_in_front(text);
    let rest = minor_of(text);
    count > 0
        && count < text.len()
        && text[count] == b'.'
        && rest.len() > 0
        && digits_in_front(rest) == rest.len()
}

fn significant(digits: &[u8]) -> &[u8]
    ensures { result.now ≡ significant digits.now }
{
    for (i, byte) in digits.iter().enumerate() {
        if *byte != b'0' {
            return &digits[i..];
        }
    }
    &digits[digits.len()..]
}

fn is_two(digits: &[u8]) -> bool
    ensures { result ≡ is_two digits.now }
{
    significant(digits) == b"2".as_slice()
}

fn first_greater(a: &[u8], b: &[u8]) -> bool
    requires { length a.now ≡ length b.now }
    ensures { result ≡ first_greater a.now b.now }
{
    for i in 0..a.len() {
        if a[i] != b[i] {
            return a[i] > b[i];
        }
    }
    false
}

fn digits_greater(a: &[u8], b: &[u8]) -> bool
    ensures { result ≡ digits_greater a.now b.now }
{
    if a.len() == b.len() {
        first_greater(a, b)
    } else {
        a.len() > b.len()
    }
}

fn is_greater(a: &[u8], b: &[u8]) -> bool
    ensures { result ≡ is_greater a.now b.now }
{
    digits_greater(significant(a), significant(b))
}

fn is_later(a: &[u8], b: &[u8]) -> bool
    ensures { result ≡ is_later a.now b.now }
{
    is_greater(major_of(a), major_of(b))
        || !is_greater(major_of(b), major_of(a)) && is_greater(minor_of(a), minor_of(b))
}
