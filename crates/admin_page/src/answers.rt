//! What requests for the page get.

ghost use Rattle.std.specs.Prelude.{◌≡◌, [], OnOk, IsTrue, codes, if◌then◌else◌};
ghost use Rattle.std.specs.Option.{option_copied};
ghost use Rattle.http.specs.Request.{head_of};
ghost use Rattle.http_header.specs.FieldValue.{is_visible_text};
ghost use Rattle.http_uri.specs.Uri.{uri_path, uri_query};
ghost use Rattle.http_server.specs.Response.{IsBlank, IsResponse};
ghost use Rattle.admin_page.specs.Answers.{Answers, AnswersAs, allowing, drain_after, drain_by, reads, resource_of, seconds_in, seconds_named, seconds_of, with_type};
ghost use Rattle.admin_page.specs.Page.{page_text};

use crate::figures::Figures;
use crate::health::health_text;
use crate::page::write_page;
use bytes::{BufMut, Bytes};
use http::{HeaderValue, Request, StatusCode, header};
use http_server::{Response, Service};
use node_link::number_within;
use resp_wire::NoMemory;
use std::alloc::{AllocError, Global};

const PAGE_TYPE: &str = "text/plain; version=0.0.4; charset=utf-8";

const TEXT_TYPE: &str = "text/plain; charset=utf-8";

/// After how many seconds of a drain what is left is cut, where the request does not say.
const DRAIN_SECONDS: u16 = 30;

/// What a request asks for.
#[derive(Clone, Copy)]
pub(crate) enum Resource {
    Page,
    Health,
    /// An end of the run. What is left after this number of seconds is cut.
    Drain(u16),
    /// The same, with a number that can't be read.
    Unread,
    /// Something that is read, by a method that does not.
    ReadOnly,
    /// Something that is done, by a method that reads.
    PostOnly,
    Unknown,
}

/// Answers requests with these figures.
#[derive(Drop)]
pub struct PageService<'a> {
    pub alloc: Global,
    pub figures: &'a Figures<'a>,
    /// After how many seconds what is left is to be cut, once the end of the run was asked for.
    pub drain: Option<u16>,
}

fn is_read(method: &str) -> bool
    ensures { result ≡ reads method.now }
{
    method == "GET" || method == "HEAD"
}

fn resource_of(method: &str, path: &str, query: Option<&str>) -> Resource
    ensures { result ≡ resource_of method.now path.now (option_copied query.entry) }
{
    if path == "/metrics" {
        return if is_read(method) {
            Resource::Page
        } else {
            Resource::ReadOnly
        };
    }
    if path == "/healthz" {
        return if is_read(method) {
            Resource::Health
        } else {
            Resource::ReadOnly
        };
    }
    if path == "/drain" {
        return if method == "POST" {
            drain_by(seconds_of(query))
        } else {
            Resource::PostOnly
        };
    }
    Resource::Unknown
}

fn drain_by(seconds: Option<u16>) -> Resource
    ensures { result ≡ drain_by seconds }
{
    match seconds {
        Some(seconds) => Resource::Drain(seconds),
        None => Resource::Unread,
    }
}

/// After how many seconds what is left is cut, where the query can be read.
fn seconds_of(query: Option<&str>) -> Option<u16>
    ensures { result ≡ seconds_of (option_copied query.entry) }
{
    match query {
        Some(query) => seconds_in(query),
        None => Some(DRAIN_SECONDS),
    }
}

fn seconds_in(query: &str) -> Option<u16>
    ensures { result ≡ seconds_in query.now }
{
    let (name, digits) = query.split_once('=')?;
    seconds_named(name, digits)
}

fn seconds_named(name: &str, digits: &str) -> Option<u16>
    ensures { result ≡ seconds_named name.now digits.now }
{
    if name == "seconds" {
        return number_within(digits.as_bytes(), 0, u16::MAX);
    }
    None
}

fn drain_after(before: Option<u16>, asked: Resource) -> Option<u16>
    ensures { result ≡ drain_after before asked }
{
    match asked {
        Resource::Drain(seconds) => Some(seconds),
        _ => before,
    }
}

impl Service for PageService<'_> {
    ghost answers = { λ old request response new. Answers old.figures.now (head_of request).method (uri_path (head_of request).uri) (uri_query (head_of request).uri) response
        × (new ≡ record old { drain = drain_after old.drain (resource_of (head_of request).method (uri_path (head_of request).uri) (uri_query (head_of request).uri)) }) };

    fn call(
        &mut self,
        request: &Request<Bytes>,
        response: &mut Response,
    ) -> Result<(), AllocError> {
        let uri = request.uri();
        let resource = resource_of(request.method().as_str(), uri.path(), uri.query());
        answer(self.alloc, self.figures, resource, response)?;
        self.drain = drain_after(self.drain, resource);
        Ok(())
    }
}

/// Fills the response for what was asked for.
fn answer(
    alloc: Global,
    figures: &Figures<'_>,
    resource: Resource,
    response: &mut Response,
) -> Result<(), AllocError>
    requires { IsBlank response.old }
    ensures { OnOk result (AnswersAs resource figures.now response.new) }
{
    match resource {
        Resource::Page => answer_page(alloc, figures, response),
        Resource::Health => answer_health(alloc, figures, response),
        Resource::Drain(_) => fill(response, StatusCode::ACCEPTED, TEXT_TYPE, b"draining\n"),
        Resource::Unread => fill(
            response,
            StatusCode::BAD_REQUEST,
            TEXT_TYPE,
            b"seconds takes a number from 0 to 65535\n",
        ),
        Resource::ReadOnly => refuse(response, "GET, HEAD"),
        Resource::PostOnly => refuse(response, "POST"),
        Resource::Unknown => fill(response, StatusCode::NOT_FOUND, TEXT_TYPE, b"not found\n"),
    }
}

fn answer_page(
    alloc: Global,
    figures: &Figures<'_>,
    response: &mut Response,
) -> Result<(), AllocError>
    requires { IsBlank response.old }
    ensures { OnOk result (IsResponse 200 (with_type (codes "text/plain; version=0.0.4; charset=utf-8")) (page_text figures.now) response.new) }
{
    let mut page = Vec::new(alloc);
    match write_page(alloc, &mut page, figures) {
        Ok(()) => fill(response, StatusCode::OK, PAGE_TYPE, page.as_slice()),
        Err(NoMemory) => Err(AllocError),
    }
}

fn answer_health(
    alloc: Global,
    figures: &Figures<'_>,
    response: &mut Response,
) -> Result<(), AllocError>
    requires { IsBlank response.old }
    ensures { OnOk result (AnswersAs Resource.Health figures.now response.new) }
{
    let text = health_text(alloc, figures)?;
    fill(
        response,
        health_status(figures.is_ready()),
        TEXT_TYPE,
        text.as_slice(),
    )
}

fn health_status(is_healthy: bool) -> StatusCode
    ensures { result ≡ (if is_healthy then 200 else 503) }
{
    if is_healthy {
        StatusCode::OK
    } else {
        StatusCode::SERVICE_UNAVAILABLE
    }
}

/// Says which methods are allowed.
fn refuse(response: &mut Response, methods: &'static str) -> Result<(), AllocError>
    requires blank { IsBlank response.old }
    requires visible { IsTrue (is_visible_text methods.now) }
    ensures { OnOk result (IsResponse 405 (allowing methods.now) [] response.new) }
{
    response.status = StatusCode::METHOD_NOT_ALLOWED;
    response.add_header(header::ALLOW, HeaderValue::from_static(methods))
}

/// Fills a blank response.
fn fill(
    response: &mut Response,
    status: StatusCode,
    kind: &'static str,
    body: &[u8],
) -> Result<(), AllocError>
    requires blank { IsBlank response.old }
    requires visible { IsTrue (is_visible_text kind.now) }
    ensures { OnOk result (IsResponse status (with_type kind.now) body.now response.new) }
{
    response.status = status;
    response.add_header(header::CONTENT_TYPE, HeaderValue::from_static(kind))?;
    response.body.put_slice(body)
}
